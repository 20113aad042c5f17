// The operators of the signs on bytes: copies, sums, "without", identities, and translations made of their parts.
#![tactic(auto)]

pub mod assemble;
pub mod canonical;
pub mod copy;
pub mod identity;
pub mod keep;
pub mod languages;
pub mod limit;
pub mod make;
pub mod numbers;
pub mod parts;
pub mod translations;
pub mod walk;
