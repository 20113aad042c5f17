// Text that the programs print, put into a buffer, and the bytes that they read.
#![tactic(auto)]

pub mod input;
pub mod text;
