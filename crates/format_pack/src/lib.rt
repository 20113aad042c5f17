// Packs and terms: the check of a pack and of its term, and where its parts stand.
#![tactic(auto)]

pub mod check;
pub mod order;
pub mod parts;
pub mod signs;
pub mod term;
pub mod whole;
