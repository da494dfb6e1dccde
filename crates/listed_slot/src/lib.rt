// A slot with its never-written list: any request bytes on any container and any list, with any reply space. It knows
// the container by what its crates promise: the judgement, the verdict on a test-and-write, the answer to a verdict,
// which commits it, and the carrying out of every other kind.
#![tactic(auto)]

mod following;
pub mod looking;
pub mod requesting;
