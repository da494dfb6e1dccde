// The upkeep of a container's leases by the rules: the audit and the sweep. The definitions are in specs/, what holds
// of them in proofs/.
#![tactic(auto)]

use format::layout::{NODE_SIZE, SECRET_SIZE};

// One lease in an audit's table: the five fields of its record.
#[repr(C)]
#[derive(Clone, Copy)]
pub struct LeaseRow {
    pub owner: u32,
    pub expiry: u32,
    pub renewal: [u8; SECRET_SIZE],
    pub cancel: [u8; SECRET_SIZE],
    pub node: [u8; NODE_SIZE],
}
