// Languages: their entries in bytes, and the check of a language.
#![tactic(auto)]

pub mod check;
pub mod clash;
pub mod entries;
pub mod range;
