// Which leaves a rule reaches, and the rows of the report.
#![tactic(auto)]

pub mod reach;
pub mod report;
