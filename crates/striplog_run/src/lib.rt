// striplog: the three files, and what is printed.
#![tactic(auto)]

pub mod files;
pub mod strip;
