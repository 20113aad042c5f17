// The join of two translations on bytes.
#![tactic(auto)]

pub mod body;
pub mod join;
