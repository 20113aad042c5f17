// The search back: which source tree gives a target tree.
#![tactic(auto)]

pub mod kinds;
pub mod search;
