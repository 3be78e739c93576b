// Where a sled may stand.
ghost use Rattle.std.specs.Prelude.{◌≡◌, Decides};
ghost use Rattle.grid.specs.Places.{position_of};
ghost use Rattle.geometry.specs.Stands.{blocked, may_stand, Standing};

use crate::sharing::cell_by;
use fleet::Fleet;
use fleet::offset::Offset;
use fleet::scan::any_offset;
use grid::cell::Cell;
use grid::floor::Floor;
use grid::place::Place;

// Whether an offset is one of a sled at a place and falls on no free cell.
fn is_blocked<F: Fleet>(fleet: &F, sled: u8, floor: &Floor, place: Place, offset: Offset) -> bool
    ensures { result ≡ blocked (F.Fleet.offsets fleet.now sled) floor.now (position_of place) offset.dx offset.dy }
{
    if !fleet.has(sled, offset) {
        return false;
    }
    let cell = cell_by(place, offset);
    floor.cell(cell.column, cell.row) != Cell::Free
}

// Whether a sled may stand at a place: on the floor, with a free cell by each of its offsets. The fleet and the sled's number go apart, as
// callers hold the one and count the other.
// A sled that the fleet does not have covers no cell, and may stand at every place of the floor.
pub fn may_stand<F: Fleet>(fleet: &F, sled: u8, floor: &Floor, place: Place) -> bool
    ensures value { result ≡ may_stand (F.Fleet.offsets fleet.now sled) floor.now (position_of place) }
    ensures meaning { Decides result (Standing (F.Fleet.offsets fleet.now sled) floor.now (position_of place)) }
{
    floor.has(place) && !any_offset(|offset| is_blocked(fleet, sled, floor, place, offset))
}
