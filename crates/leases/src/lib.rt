// The lease places of a well-formed container, and the three lease requests on them, in place.
#![tactic(auto)]

pub mod changes;
pub mod operations;
pub mod places;
