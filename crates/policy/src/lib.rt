// Policies: what is done to a message, read from a text line by line.
#![tactic(auto)]

pub mod line;
pub mod policy;
pub mod rule_list;
