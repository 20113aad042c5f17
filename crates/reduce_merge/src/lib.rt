// Two files of rising fields side by side: their union and difference, whether they agree, and whether one language lies within
// another.
#![tactic(auto)]

pub mod fit;
pub mod meet;
pub mod merge;
pub mod prefix;
pub mod within;
