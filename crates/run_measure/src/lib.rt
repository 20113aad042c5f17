// The length of the result of a run, and what the run costs, measured in one pass over the tree.
#![tactic(auto)]

pub mod capped;
pub mod count;
pub mod measure;
pub mod prepare;
pub mod table;
pub mod weigh;
