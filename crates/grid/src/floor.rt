// A floor of 1 to 16 columns and 1 to 16 rows.
ghost use Rattle.std.specs.Prelude.{◌≡◌, ◌≤◌, length};

use crate::cell::Cell;
use crate::place::BOARD_PLACES;

mod calls;

// The cells come row by row, as many to a row as there are columns; what follows them is not part of the floor.
#[derive(Clone, Copy)]
pub struct Floor {
    columns: u8,
    rows: u8,
    cells: [Cell; BOARD_PLACES],
    ghost wide: { 1 ≤ columns },
    ghost narrow: { columns ≤ 16 },
    ghost tall: { 1 ≤ rows },
    ghost short: { rows ≤ 16 },
    // said again, as lemmas see the cells alone and not their type
    ghost whole: { length cells ≡ 256 },
}
