// The score of a loose plan.
#![tactic(auto)]

pub mod operation;
