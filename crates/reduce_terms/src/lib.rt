// The evaluation of terms over a store.
#![tactic(auto)]

pub mod terms;
