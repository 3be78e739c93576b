// A place of the board of 16 by 16: a column and a row, from 0 at the top left.
ghost use Rattle.std.specs.Prelude.{◌≤◌};

mod calls;

// The sides of the board, whatever the floor's size.
pub const BOARD_SIDE: u8 = 16;

pub const BOARD_PLACES: usize = 256;

#[derive(Clone, Copy, PartialEq, Debug)]
pub struct Place {
    pub column: u8,
    pub row: u8,
    ghost across: { column ≤ 15 },
    ghost down: { row ≤ 15 },
}
