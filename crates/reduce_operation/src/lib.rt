// The operation reduce.
#![tactic(auto)]

pub mod reduce;
