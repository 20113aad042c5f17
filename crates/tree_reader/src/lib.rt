// The index of a language and the reader of typed codes and trees.
#![tactic(auto)]

pub mod ends;
pub mod index;
pub mod kinds;
pub mod node;
pub mod operands;
pub mod read;
