// Where a sled may stand, worked out once for the whole board.
#![tactic(auto)]

ghost use Rattle.std.specs.Prelude.{◌≡◌};
ghost use Rattle.grid.specs.Places.{position_at};
ghost use Rattle.geometry.specs.Stands.{may_stand};
ghost use Rattle.standing.specs.Tables.{StandsAt};

use fleet::Fleet;
use geometry::standing::may_stand;
use grid::floor::Floor;
use grid::place::{BOARD_PLACES, Place};
use std::array;

// Whether the sled may stand at the place with this number.
fn stands_at<F: Fleet>(fleet: &F, sled: u8, floor: &Floor, number: u8) -> bool
    ensures { result ≡ may_stand (F.Fleet.offsets fleet.now sled) floor.now (position_at number) }
{
    may_stand(fleet, sled, floor, Place::from(number))
}

// For each place of the board, by its number, whether the sled may stand there.
pub fn standing_places<F: Fleet>(fleet: &F, sled: u8, floor: &Floor) -> [bool; BOARD_PLACES]
    ensures { StandsAt (F.Fleet.offsets fleet.now sled) floor.now result }
{
    array::from_fn(|number| stands_at(fleet, sled, floor, number as u8))
}
