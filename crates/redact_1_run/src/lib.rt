// One message, redacted.
#![tactic(auto)]

pub mod from_tables;
pub mod run;
