// Fleets and pairs of sleds as tables, for quick answers.
#![tactic(auto)]

pub mod differences;
mod table;
pub mod tabled;
