// The least levels at which a source tree gives a part of the target tree, over a lent memory.
#![tactic(auto)]

pub mod clause;
pub mod ends;
pub mod levels;
pub mod memory;
pub mod names;
pub mod searched;
