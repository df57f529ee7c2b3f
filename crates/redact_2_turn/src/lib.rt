// A turn of a run over a message's tables.
#![tactic(auto)]

pub mod turn;
