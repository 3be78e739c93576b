// The floor and the board under it: positions, places, moves, and which cells are free; and for how long and for how many sleds one plans.
#![tactic(auto)]

pub mod board;
pub mod cell;
pub mod floor;
pub mod horizon;
pub mod limits;
pub mod moves;
pub mod place;
pub mod position;
