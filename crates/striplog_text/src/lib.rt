// striplog's texts: the key as it is read, and what is printed.
#![tactic(auto)]

pub mod key;
pub mod print;
