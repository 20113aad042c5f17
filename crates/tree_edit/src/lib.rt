// A plan with one block replaced, and its index.
#![tactic(auto)]

pub mod edit;
pub mod moves;
