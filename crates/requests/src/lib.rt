// A request's bytes taken apart: a cursor handed on by value, offsets resolved, and the form of a whole request.
#![tactic(auto)]

pub mod cursors;
pub mod forms;
pub mod kinds;
pub mod offsets;
