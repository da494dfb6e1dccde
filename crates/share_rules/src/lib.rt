// What the share writers do (docs/RULES.md, S40 to S44, S53, S58). The definitions are in specs/, what holds of them in
// proofs/.
#![tactic(auto)]

// The C interface's record: the outcome's number, and on 0 the share's length.
#[repr(C)]
#[derive(Clone, Copy)]
pub struct Written {
    pub number: u32,
    pub length: u64,
}
