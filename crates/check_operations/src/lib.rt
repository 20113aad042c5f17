// What is opened for the operations, and the operations that check a tree and a translation.
#![tactic(auto)]

pub mod open;
pub mod translations;
pub mod trees;
