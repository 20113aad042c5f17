// The table of a translation, in which a run and a joined score look things up: its layout, and how it is filled.
#![tactic(auto)]

pub mod hints;
pub mod prepare;
pub mod table;
