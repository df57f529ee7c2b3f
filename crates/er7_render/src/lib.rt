// Changes and prints a message that stands in its two tables.
#![tactic(auto)]

pub mod render;
pub mod store;
