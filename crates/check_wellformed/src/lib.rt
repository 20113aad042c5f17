// Well-formed translations: the mapping, the clauses and their codes.
#![tactic(auto)]

pub mod check;
pub mod clauses;
pub mod codes;
pub mod kinds;
pub mod mapping;
pub mod parts;
