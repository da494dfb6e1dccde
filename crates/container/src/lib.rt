// One container in a lent buffer: apply requests to it, read it where it is lent for reading only, and lend its data.
// Nobody who calls is trusted to have checked anything.
#![tactic(auto)]

pub mod data;
pub mod looking;
pub mod requesting;
