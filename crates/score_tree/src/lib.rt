// Load tables, the linear form of a code, and the score of a plan.
#![tactic(auto)]

pub mod figures;
pub mod form;
pub mod loaded;
pub mod plan;
pub mod prepare;
pub mod score;
pub mod table;
pub mod walk;
