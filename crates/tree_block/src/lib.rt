// One block of a tree by its path, handed back as the part of the caller's own bytes that holds it.
#![tactic(auto)]

pub mod descent;
pub mod show;
