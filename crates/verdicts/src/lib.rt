// A test-and-write on a well-formed container, judged and committed by two functions, so that a crate above can put
// rows of its own between them.
#![tactic(auto)]

pub mod writing;
