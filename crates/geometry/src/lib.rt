// Sleds on a floor: where one may stand, which share a cell, and which collide in a step.
#![tactic(auto)]

pub mod collision;
mod overlap;
pub mod pair;
pub mod relative;
pub mod sharing;
pub mod spot;
pub mod standing;
