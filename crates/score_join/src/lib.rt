// Load tables joined onto translations.
#![tactic(auto)]

pub mod join;
