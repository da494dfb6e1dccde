// The upkeep of a container's leases in a lent buffer: the audit, lease by lease, and the sweep. Nobody who calls is
// trusted to have checked anything.
#![tactic(auto)]

pub mod auditing;
pub mod sweeping;
