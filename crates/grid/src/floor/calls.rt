// What a floor answers.
ghost use Rattle.std.specs.Prelude.{◌≡◌};
ghost use Rattle.grid.specs.Floors.{Laid, cells_of, on_floor, cell_at};

use crate::cell::Cell;
use crate::floor::Floor;
use crate::place::{BOARD_PLACES, BOARD_SIDE, Place};

impl Floor {
    // The floor of these sides, if each is from 1 to 16, with the cells row by row at the front of the list.
    pub fn new(columns: u8, rows: u8, cells: [Cell; BOARD_PLACES]) -> Option<Floor>
        ensures { Laid columns rows cells result }
    {
        match (columns, rows) {
            (1..=BOARD_SIDE, 1..=BOARD_SIDE) => Some(Floor {
                columns,
                rows,
                cells,
            }),
            _ => None,
        }
    }

    pub fn columns(&self) -> u8
        ensures { result ≡ self.now.columns }
    {
        self.columns
    }

    pub fn rows(&self) -> u8
        ensures { result ≡ self.now.rows }
    {
        self.rows
    }

    // All cells, row by row.
    pub fn cells(&self) -> &[Cell]
        ensures { result.now ≡ cells_of self.now }
    {
        &self.cells[..usize::from(self.columns) * usize::from(self.rows)]
    }

    // Whether a place lies on the floor.
    pub fn has(&self, place: Place) -> bool
        ensures { result ≡ on_floor self.now place.column place.row }
    {
        place.column < self.columns && place.row < self.rows
    }

    // The cell at a column and a row; every cell beyond the floor is a pillar.
    pub fn cell(&self, column: i8, row: i8) -> Cell
        ensures { result ≡ cell_at self.now column row }
    {
        if column < 0 || column >= self.columns as i8 || row < 0 || row >= self.rows as i8 {
            return Cell::Pillar;
        }
        let columns = self.columns as usize;
        self.cells[row as usize * columns + column as usize]
    }
}
