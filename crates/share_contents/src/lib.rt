// The rows that look into parts, 26 to 29: of a share, or of what shall go into one.
#![tactic(auto)]

pub mod contents;
pub mod faults;
mod nodes;
