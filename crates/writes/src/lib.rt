// The writes and the cut of a test-and-write, on a well-formed container in place.
#![tactic(auto)]

mod overlay;
pub mod rewrite;
pub mod sizes;
mod stretch;
