// Joint plans: a search takes a job with a fleet and a splitting rule, and makes the constraint tree turn by turn.
#![tactic(auto)]

mod advance;
pub mod call;
mod open;
mod print;
mod routes;
mod run;
mod state;
mod tell;
pub mod verdict;

pub use state::Search;
