// The constraint tree as a program, for every problem: a table of nodes, and turns that are those of the theory.
#![tactic(auto)]

pub mod call;
mod calls;
mod conflict;
mod cost;
mod expand;
mod forbidden;
mod forbidding;
mod grow;
pub mod lone;
pub mod node;
mod placed;
mod plan;
pub mod problem;
mod replay;
mod scan;
mod split;
mod state;
mod table;
mod told;
mod trail;
mod turns;

pub use state::Engine;
