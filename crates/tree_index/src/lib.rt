// The index of a tree: where each node starts and how long it is.
#![tactic(auto)]

pub mod build;
pub mod compare;
pub mod entries;
pub mod operands;
pub mod walk;
