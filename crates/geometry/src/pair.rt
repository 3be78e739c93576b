// Two sleds and where they are.
use grid::place::Place;

// Sled i at u and sled j at v.
#[derive(Clone, Copy, PartialEq, Debug)]
pub struct Pair {
    pub i: u8,
    pub j: u8,
    pub u: Place,
    pub v: Place,
}
