// Where the check of a tree stops.
#![tactic(auto)]

pub mod locate;
pub mod walk;
