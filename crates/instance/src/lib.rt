// A job with a fleet and a splitting rule as the problem of one search. All that fleet and floor are asked is worked out once.
#![tactic(auto)]

mod ends;
pub mod instance;
mod meeting;
mod pairs;
pub mod ruled;
mod standings;
mod step;
