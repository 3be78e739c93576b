// What a trail forbids one sled, collected into a table.
use super::node::{MAX_MOVES, PlaceSet};
use few::Few;
use walk::horizon::MAX_INSTANTS;
use walk::weight::Step;

// The places forbidden at each instant; the places that some forbidden move leaves; and these moves. The second table is no second list
// of moves: it answers at once for the places that no forbidden move leaves, which are most of them.
#[derive(Clone, Copy)]
pub(crate) struct Forbidden {
    pub(crate) places: [PlaceSet; MAX_INSTANTS],
    pub(crate) leaving: [PlaceSet; MAX_INSTANTS],
    pub(crate) moves: Few<Step, MAX_MOVES>,
}
