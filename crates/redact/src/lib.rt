// The entry redact.
#![tactic(auto)]

pub mod redact;
