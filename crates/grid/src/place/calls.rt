// Places by column and row, and by number.
ghost use Rattle.std.specs.Prelude.{Some};
ghost use Rattle.grid.specs.Places.{HasNumber, Placed, column_row};

use crate::place::{BOARD_SIDE, Place};
use std::fmt;

impl Place {
    // The place at a column and a row, if they lie on the board.
    pub fn new(column: u8, row: u8) -> Option<Place>
        ensures { Placed column row result }
    {
        match (column, row) {
            (0..BOARD_SIDE, 0..BOARD_SIDE) => Some(Place { column, row }),
            _ => None,
        }
    }
}

// The place number: row by row, sixteen to a row.
impl From<Place> for u8 {
    ghost from_gives = { HasNumber };

    fn from(place: Place) -> u8 {
        BOARD_SIDE * place.row + place.column
    }
}

// The place with this number: every byte is the number of one place.
impl From<u8> for Place {
    ghost from_gives = { λ number place. HasNumber place number };

    fn from(number: u8) -> Place {
        Place {
            column: number % BOARD_SIDE,
            row: number / BOARD_SIDE,
        }
    }
}

// The column, a comma and the row.
impl fmt::Display for Place {
    ghost output = { λ place. Some (column_row place) };

    fn fmt<W: fmt::Write>(&self, f: &mut fmt::Formatter<W>) -> fmt::Result {
        write!(f, "{},{}", self.column, self.row)
    }
}
