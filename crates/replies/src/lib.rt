// Tests and reads on a container's data, and the reply that reports their pieces.
#![tactic(auto)]

pub mod pieces;
pub mod reply;
pub mod tests;
