// The field of the floor: columns, rows, and the cells row by row.
ghost use Rattle.std.specs.Prelude.{◌≡◌, ◌≤◌, length};
ghost use Rattle.job.specs.Reading.{floor_of, floor_facts, shown, CellsRead};

use crate::field::{Field, HEADER};
use crate::value::{Sides, Value};
use fault::cause::{Cause, Fault};
use grid::cell::Cell;
use grid::floor::Floor;
use grid::place::BOARD_PLACES;

// The cells come after the header and two bytes for the sides.
const CELLS: usize = 5;

pub(crate) fn read_floor(field: Field) -> Result<Floor, Fault>
    ensures { shown floor_facts result ≡ floor_of field.entry.at field.entry.rest.now }
{
    let header = field.header()?;
    if header.tag != b'F' {
        return Err(field.refused(Cause::TagNotDue));
    }
    if header.size < 2 {
        return Err(field.refused(Cause::WrongLength));
    }
    let rest = field.rest;
    if rest.len() < HEADER + usize::from(header.size) {
        return Err(field.refused(Cause::EndsInsideField));
    }
    let (columns, rows) = (rest[HEADER], rest[HEADER + 1]);
    field.check(Value::Floor(Sides { columns, rows }))?;
    let count = usize::from(columns) * usize::from(rows);
    if usize::from(header.size) != 2 + count {
        return Err(field.refused(Cause::WrongLength));
    }
    let cells = read_cells(&rest[CELLS..CELLS + count]).ok_or(field.refused(
        Cause::ValueOutsideLimits,
    ))?;
    let Some(floor) = Floor::new(columns, rows, cells) else {
        unreachable()
    };
    Ok(floor)
}

// The cells with these bytes, at the front of a whole board, or nothing where a byte is no cell's.
fn read_cells(bytes: &[u8]) -> Option<[Cell; BOARD_PLACES]>
    requires { length bytes.now ≤ 256 }
    ensures { CellsRead bytes.now result }
{
    let mut cells = [Cell::Pillar; BOARD_PLACES];
    // By index: of what is written through a zip of `iter_mut` a proof knows no cell, so the result stays open.
    for (i, byte) in bytes.iter().enumerate() {
        cells[i] = Cell::try_from(*byte).ok()?;
    }
    Some(cells)
}
