// One leaf's text under an action, and the values that are learnt from leaves.
#![tactic(auto)]

pub mod act;
pub mod known;
pub mod state;
