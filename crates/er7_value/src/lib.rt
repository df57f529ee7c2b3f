// The value of a leaf: escapes read and written, and words in a value.
#![tactic(auto)]

pub mod escape;
pub mod word;
