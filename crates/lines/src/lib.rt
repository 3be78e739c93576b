// The lines that tell how a search ended.
#![tactic(auto)]

pub mod outcome;
pub mod report;
mod route;
