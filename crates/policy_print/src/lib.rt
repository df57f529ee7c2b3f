// Policies printed: one that was read, two that are merged, and the four built-ins.
#![tactic(auto)]

pub mod builtin;
pub mod display;
pub mod print;
