// The entries on slices: print, append, built-in and payload, with the parts that every entry shares.
#![tactic(auto)]

pub mod payload;
pub mod print;
pub mod returned;
