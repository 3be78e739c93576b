// A cell of the floor, and its byte in a job file.
ghost use Rattle.std.specs.Prelude.{Some, [], ◌∷◌};
ghost use Rattle.grid.specs.Cells.{Decodes, byte_of};

use std::fmt;

#[derive(Clone, Copy, PartialEq, Debug)]
pub enum Cell {
    Pillar,
    Free,
}

// A byte that is no cell's.
#[derive(Clone, Copy, PartialEq, Debug)]
pub struct NotACell(pub u8);

// The cell with this byte in a job file.
impl TryFrom<u8> for Cell {
    type Error = NotACell;

    ghost try_from_gives = { Decodes };

    fn try_from(byte: u8) -> Result<Cell, NotACell> {
        match byte as char {
            '.' => Ok(Cell::Free),
            '#' => Ok(Cell::Pillar),
            _ => Err(NotACell(byte)),
        }
    }
}

// By its byte in a job file.
impl fmt::Display for Cell {
    ghost output = { λ cell. Some (byte_of cell ∷ []) };

    fn fmt<W: fmt::Write>(&self, f: &mut fmt::Formatter<W>) -> fmt::Result {
        f.write_str(match self {
            Cell::Free => ".",
            Cell::Pillar => "#",
        })
    }
}
