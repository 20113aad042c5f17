// What stands at a path of a tree: the kind, the name and the number of arguments of its node.
#![tactic(auto)]

pub mod node;
