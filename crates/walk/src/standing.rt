// The steps of one sled on a floor.
ghost use Rattle.std.specs.Prelude.{◌≡◌, ℕ, ◌<◌};
ghost use Rattle.walk.specs.Sleds.{open_floor, stands, both_ends};

use crate::weight::{Step, Steps};
use grid::place::{BOARD_PLACES, Place};
use std::array;

// Whether the sled may stand at each place of the board: worked out before a walk, so that the walk asks neither fleet nor floor.
#[derive(Clone, Copy, PartialEq, Debug)]
pub struct Standing {
    pub at: [bool; BOARD_PLACES],
}

impl Standing {
    // A sled of one cell on a floor without pillars, of so many columns and rows.
    pub fn open(columns: usize, rows: usize) -> Standing
        ensures { (p : ℕ) → p < BOARD_PLACES → stands result.at p ≡ open_floor columns rows p }
    {
        Standing {
            at: array::from_fn(
                |place|
                    requires { place < BOARD_PLACES }
                    ensures { result ≡ open_floor columns rows place }
                {
                    let place = Place::from(place as u8);
                    usize::from(place.column) < columns && usize::from(place.row) < rows
                },
            ),
        }
    }
}

// A step is allowed where the sled may stand at both its ends.
impl Steps<bool> for Standing {
    ghost step = { λ s t p q. both_ends (stands s.at) t p q };

    fn weight(&self, taken: Step) -> bool {
        self.at[taken.from as usize] && self.at[taken.to as usize]
    }
}
