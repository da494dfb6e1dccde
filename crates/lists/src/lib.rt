// The never-written list in code: judged where it lies, its rows in memory while a request is judged, written back.
#![tactic(auto)]

pub mod list;
pub mod rows;
