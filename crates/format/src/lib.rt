// The container's format: where its parts stand, and whether a buffer is a well-formed container.
#![tactic(auto)]

pub mod judging;
pub mod layout;
