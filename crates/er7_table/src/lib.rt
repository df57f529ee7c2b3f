// The tables that hold a message: its leaves and its segments.
#![tactic(auto)]

pub mod table;
