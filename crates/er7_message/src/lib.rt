// Reads a message into its two tables.
#![tactic(auto)]

pub mod message;
pub mod separators;
