// Takes the text of a replay file apart: runs of bytes, numerals, items and commands. docs/REPLAY.md has the grammar.
#![tactic(auto)]

pub mod commands;
pub mod items;
mod numerals;
pub mod scanning;
