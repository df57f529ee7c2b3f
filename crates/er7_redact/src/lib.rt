// Redaction of HL7 v2 messages: actions and rules.
#![tactic(auto)]

pub mod action;
pub mod policy;
