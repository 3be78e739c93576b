// What programs that try the planner share: dice, fields of a job file, and a check that names what is wrong.
#![tactic(auto)]

pub mod check;
pub mod dice;
pub mod field;
