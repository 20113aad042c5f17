// The signs of terms: which term a sign begins, and what it does with the values of its operands.
#![tactic(auto)]

pub mod apply;
pub mod evaluated;
pub mod forms;
pub mod leaves;
pub mod places;
pub mod sorts;
