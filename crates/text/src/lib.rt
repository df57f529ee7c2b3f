// Bytes and numbers as text: what every part of the redactor stands on.
#![tactic(auto)]

pub mod bytes;
pub mod decimal;
pub mod positional;
