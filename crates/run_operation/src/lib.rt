// The operation run: a tree through a translation, into an output.
#![tactic(auto)]

pub mod run;
