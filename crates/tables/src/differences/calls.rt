// Making the differences of a pair of sleds once, and then asking whether the two share a cell or collide.
ghost use Rattle.std.specs.Prelude.{◌≡◌, ◌≤◌, [], ◌∷◌, ℤ, pos, negsuc, ◌+ℤ◌, ◌-ℤ◌, ◌≤ℤ◌, Decides};
ghost use Rattle.std.specs.List.{list_any};
ghost use Rattle.grid.specs.Places.{position_of};
ghost use Rattle.fleet.specs.Offsets.{Offsets};
ghost use Rattle.geometry.specs.Overlaps.{Short};
ghost use Rattle.geometry.specs.Shares.{share_cell};
ghost use Rattle.geometry.specs.Collisions.{collide};
ghost use Rattle.tables.specs.DifferenceSets.{differences, difference_set, DifferencesOf, Difference};
ghost use Rattle.tables.specs.Sweeps.{half};

use crate::differences::Differences;
use crate::table::Table;
use fleet::Fleet;
use fleet::offset::Offset;
use fleet::scan::any_offset;
use geometry::relative::relative;
use grid::moves::Move;
use grid::place::Place;

// Whether sled j has some offset of sled i, moved by a difference.
fn are_apart<F: Fleet>(fleet: &F, i: u8, j: u8, difference: Offset) -> bool
    ensures { result ≡ differences (F.Fleet.offsets fleet.now i) (F.Fleet.offsets fleet.now j) difference.dx difference.dy }
{
    any_offset(|offset| fleet.has(i, offset) && fleet.has_moved(j, offset, difference))
}

impl Differences {
    // The differences between the offsets of sled i and those of sled j.
    pub fn of<F: Fleet>(fleet: &F, i: u8, j: u8) -> Differences
        ensures table { DifferencesOf (F.Fleet.offsets fleet.now i) (F.Fleet.offsets fleet.now j) result }
        ensures meaning { (x y : ℤ) → Decides (difference_set result x y) (Difference (F.Fleet.offsets fleet.now i) (F.Fleet.offsets fleet.now j) x y) }
    {
        Differences {
            table: Table::of(|difference| are_apart(fleet, i, j, difference)),
        }
    }

    // Whether sled i at u and sled j at v share a cell.
    pub fn shares_cell(&self, u: Place, v: Place) -> bool
        ensures { (first second : Offsets) → DifferencesOf first second self.now → result ≡ share_cell first (position_of u) second (position_of v) }
    {
        self.table.has(gap(u, v))
    }

    // Whether sled i, moving by a from u, and sled j, moving by b from v, collide.
    pub fn collides(&self, u: Place, a: Move, v: Place, b: Move) -> bool
        ensures { (first second : Offsets) → DifferencesOf first second self.now → result ≡ collide first (position_of u) a second (position_of v) b }
    {
        let step = relative(a, b);
        let start = gap(u, v);
        let columns = passed(start.dx, step.dx);
        let rows = passed(start.dy, step.dy);
        rows.iter().any(|y| self.row_has(&columns, *y))
    }

    // Whether a difference in this row is in one of the columns.
    fn row_has(&self, columns: &[i8], y: i8) -> bool
        ensures { result ≡ list_any (λ x. difference_set self.now x y) columns.now }
    {
        columns
            .iter()
            .any(|x| self.table.has(Offset { dx: *x, dy: y }))
    }
}

// How far a place lies from another.
fn gap(place: Place, other: Place) -> Offset
    ensures across { result.dx ≡ pos place.column -ℤ pos other.column }
    ensures down { result.dy ≡ pos place.row -ℤ pos other.row }
{
    Offset {
        dx: place.column as i8 - other.column as i8,
        dy: place.row as i8 - other.row as i8,
    }
}

// Where a step passes from a difference of columns or rows: its start, half way and its end.
fn passed(z: i8, step: i8) -> [i8; 3]
    requires near { (negsuc 14 ≤ℤ z) × (z ≤ℤ pos 15) }
    requires short { Short step }
    ensures { result ≡ z ∷ (z +ℤ half step) ∷ (z +ℤ step) ∷ [] }
{
    [z, z + halved(step), z + step]
}

// Half a step of at most two cells, towards 0.
fn halved(step: i8) -> i8
    requires { Short step }
    ensures value { result ≡ half step }
    ensures short { (negsuc 0 ≤ℤ result) × (result ≤ℤ pos 1) }
{
    step / 2
}
