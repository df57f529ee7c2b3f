// HL7 v2 messages in ER7: paths, and the parts of a message.
#![tactic(auto)]

pub mod message;
pub mod path;
pub mod separators;
