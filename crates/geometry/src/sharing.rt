// Which cells a sled covers, and which two sleds share.
ghost use Rattle.std.specs.Prelude.{◌≡◌, pos, ◌+ℤ◌, Decides};
ghost use Rattle.grid.specs.Places.{position_of};
ghost use Rattle.fleet.specs.Offsets.{Near};
ghost use Rattle.geometry.specs.Shares.{covers, shared, share_cell, Sharing, FirstSharedTold};

use crate::pair::Pair;
use crate::spot::Spot;
use fleet::Fleet;
use fleet::offset::Offset;
use fleet::scan::{any_offset, first_offset};
use grid::place::Place;

// The cell of a sled at a place by one of its offsets.
pub(crate) fn cell_by(place: Place, offset: Offset) -> Spot
    requires { Near offset.dx × Near offset.dy }
    ensures column { result.column ≡ pos place.column +ℤ offset.dx }
    ensures row { result.row ≡ pos place.row +ℤ offset.dy }
{
    Spot {
        column: place.column as i8 + offset.dx,
        row: place.row as i8 + offset.dy,
    }
}

// Whether a sled at a place covers a cell.
pub fn covers_cell<F: Fleet>(fleet: &F, sled: u8, place: Place, cell: Spot) -> bool
    ensures { result ≡ covers (F.Fleet.offsets fleet.now sled) (position_of place) cell.column cell.row }
{
    // From the corner of the board to the cell, and from the place back to the corner.
    let to_cell = Offset {
        dx: cell.column,
        dy: cell.row,
    };
    let to_corner = Offset {
        dx: -(place.column as i8),
        dy: -(place.row as i8),
    };
    fleet.has_moved(sled, to_cell, to_corner)
}

// Whether an offset is one of the first sled and falls on a cell of the second.
fn is_shared<F: Fleet>(fleet: &F, pair: Pair, offset: Offset) -> bool
    ensures { result ≡ shared (F.Fleet.offsets fleet.now pair.i) (position_of pair.u) (F.Fleet.offsets fleet.now pair.j) (position_of pair.v) offset.dx offset.dy }
{
    fleet.has(pair.i, offset) && covers_cell(fleet, pair.j, pair.v, cell_by(pair.u, offset))
}

// Whether the two sleds of a pair share a cell.
pub fn shares_cell<F: Fleet>(fleet: &F, pair: Pair) -> bool
    ensures value { result ≡ share_cell (F.Fleet.offsets fleet.now pair.i) (position_of pair.u) (F.Fleet.offsets fleet.now pair.j) (position_of pair.v) }
    ensures meaning { Decides result (Sharing (F.Fleet.offsets fleet.now pair.i) (position_of pair.u) (F.Fleet.offsets fleet.now pair.j) (position_of pair.v)) }
    ensures either { result ≡ share_cell (F.Fleet.offsets fleet.now pair.j) (position_of pair.v) (F.Fleet.offsets fleet.now pair.i) (position_of pair.u) }
{
    any_offset(|offset| is_shared(fleet, pair, offset))
}

// The first cell, by row and then column, that the two sleds of a pair share.
pub fn first_shared_cell<F: Fleet>(fleet: &F, pair: Pair) -> Option<Spot>
    ensures { FirstSharedTold (F.Fleet.offsets fleet.now pair.i) (position_of pair.u) (F.Fleet.offsets fleet.now pair.j) (position_of pair.v) result }
{
    let offset = first_offset(|offset| is_shared(fleet, pair, offset))?;
    Some(cell_by(pair.u, offset))
}
