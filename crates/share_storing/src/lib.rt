// A share's header stored, SDMF or MDMF.
#![tactic(auto)]

pub mod fields;
