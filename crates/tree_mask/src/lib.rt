// The masked plan: a tree with each block that may not be seen written as one byte.
#![tactic(auto)]

pub mod mask;
pub mod row;
pub mod walk;
