// The collapse of a node.
#![tactic(auto)]

pub mod node;
