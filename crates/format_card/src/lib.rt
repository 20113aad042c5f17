// A viewer's card: which kinds a person may see.
#![tactic(auto)]

pub mod lowest;
pub mod read;
pub mod set;
