// The judgement of a share where it lies, SDMF or MDMF: the lowest row that applies.
#![tactic(auto)]

pub mod judging;
