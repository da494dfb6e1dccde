// The share checker, for SDMF and MDMF, on bare bytes or on a container's data.
#![tactic(auto)]

pub mod share;
