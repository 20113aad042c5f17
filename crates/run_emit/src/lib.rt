// The emitter: the run of a term through a translation, put into an output.
#![tactic(auto)]

pub mod put;
pub mod reading;
pub mod run;
pub mod skip;
pub mod starts;
