// The texts of trees: reading them, and the tree that a text holds.
#![tactic(auto)]

pub mod contents;
pub mod import;
pub mod scan;
pub mod tags;
