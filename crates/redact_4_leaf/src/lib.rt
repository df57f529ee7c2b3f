// A visit to a leaf: by a rule, by a rejecting posture, by the sweep.
#![tactic(auto)]

pub mod leaf;
pub mod learn;
pub mod visit;
