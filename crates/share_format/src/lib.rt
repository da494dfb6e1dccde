// The layout of a share, SDMF or MDMF: its header, and its parts.
#![tactic(auto)]

pub mod bounds;
pub mod header;
pub mod parts;
