// The rows that need only numbers, 23 to 25: of a share, or of what shall go into one.
#![tactic(auto)]

pub mod coding;
pub mod order;
