// Refusals: their causes, the line that tells one, and calls that write lines.
#![tactic(auto)]

pub mod cause;
pub mod lines;
pub mod refusal;
