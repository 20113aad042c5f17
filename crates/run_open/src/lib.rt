// Opening a translation: it is checked, and what a run looks things up in is filled.
#![tactic(auto)]

pub mod open;
