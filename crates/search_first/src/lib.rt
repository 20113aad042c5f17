// The first source tree in byte order for a part of the target tree: its name, and its bytes.
#![tactic(auto)]

pub mod choice;
pub mod put;
