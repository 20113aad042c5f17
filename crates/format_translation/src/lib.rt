// Translations: their parts in bytes, the order of their keys, and the index of a body.
#![tactic(auto)]

pub mod body;
pub mod clause;
pub mod index;
pub mod order;
pub mod parts;
pub mod plain;
