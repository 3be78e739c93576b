// A layered walk over the board for every kind of weight, and what is made of it: the first route of least cost, and how many routes cost as little.
#![tactic(auto)]

mod allowed;
mod arrival;
mod chart;
pub mod count;
pub mod definitions;
pub mod errand;
pub mod horizon;
pub mod kinds;
pub mod layers;
mod reversed;
pub mod route;
mod rows;
pub mod standing;
pub mod tally;
pub mod weight;
