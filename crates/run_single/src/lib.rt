// Measuring a run through a translation that has number 0 only.
#![tactic(auto)]

pub mod walk;
