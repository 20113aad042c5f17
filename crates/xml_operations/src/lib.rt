// Trees as XML: export and import.
#![tactic(auto)]

pub mod export;
pub mod measure;
pub mod operations;
pub mod put;
