// A column and a row, from 0 at the top left, on the board or beyond it.

#[derive(Clone, Copy, PartialEq, Debug)]
pub struct Position {
    pub column: u8,
    pub row: u8,
}
