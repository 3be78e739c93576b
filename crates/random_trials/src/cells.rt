// Which cells a sled has, and where it may stand.
use crate::case::{Floor, Form, Shape, Spot};
use std::alloc::{AllocError, Global};

// How far a cell of a sled lies from the sled's place: across, to the right, and down.
#[derive(Clone, Copy)]
pub struct Offset {
    pub across: i8,
    pub down: i8,
}

// The furthest that an offset may go, either way.
const REACH: i8 = 7;

impl Offset {
    // Whether it lies at most so far from another, across and down.
    fn is_within(self, far: u8, other: Offset) -> bool {
        self.across.abs_diff(other.across) <= far && self.down.abs_diff(other.down) <= far
    }
}

// Whether a number is one of 0, 1, .. below a side.
fn is_below(number: i8, side: u8) -> bool {
    u8::try_from(number).is_ok_and(|number| number < side)
}

impl Shape {
    fn has(self, offset: Offset) -> bool {
        match self {
            Shape::Rectangle { width, height } => {
                is_below(offset.across, width) && is_below(offset.down, height)
            }
            Shape::Drawing { rows } => is_drawn(&rows, offset),
        }
    }
}

fn is_drawn(rows: &[u8; 8], offset: Offset) -> bool {
    let Ok(across) = u32::try_from(offset.across) else {
        return false;
    };
    let Ok(down) = usize::try_from(offset.down) else {
        return false;
    };
    let row = rows.get(down).copied().unwrap_or(0);
    let bit = 128u8.checked_shr(across).unwrap_or(0);
    row & bit != 0
}

impl Form {
    // All offsets that lie within the skirt of one of the shape's.
    pub fn offsets(self, alloc: Global) -> Result<Vec<Offset>, AllocError> {
        let all = all_offsets(alloc)?;
        let mut offsets = Vec::new(alloc);
        for offset in &all {
            let is_near = |near: &Offset| {
                self.shape.has(*near) && offset.is_within(self.skirt, *near)
            };
            if all.iter().any(is_near) {
                offsets.push(*offset)?;
            }
        }
        Ok(offsets)
    }
}

fn all_offsets(alloc: Global) -> Result<Vec<Offset>, AllocError> {
    let mut all = Vec::new(alloc);
    for down in -REACH..=REACH {
        for across in -REACH..=REACH {
            all.push(Offset { across, down })?;
        }
    }
    Ok(all)
}

impl Floor {
    // All places, row by row.
    pub fn spots(&self, alloc: Global) -> Result<Vec<Spot>, AllocError> {
        let mut spots = Vec::new(alloc);
        for row in (0..i8::MAX).take(usize::from(self.rows)) {
            for column in (0..i8::MAX).take(usize::from(self.columns)) {
                spots.push(Spot { column, row })?;
            }
        }
        Ok(spots)
    }

    // The places where a form may stand: each of its cells is free there.
    pub fn standing(&self, alloc: Global, form: Form) -> Result<Vec<Spot>, AllocError> {
        let cells = form.offsets(alloc)?;
        let mut standing = Vec::new(alloc);
        for spot in &self.spots(alloc)? {
            if cells.iter().all(|cell| self.is_free(*spot, *cell)) {
                standing.push(*spot)?;
            }
        }
        Ok(standing)
    }

    // Whether the cell so far from a place is free; beyond the floor no cell is.
    fn is_free(&self, spot: Spot, cell: Offset) -> bool {
        let column = spot.column.saturating_add(cell.across);
        let row = spot.row.saturating_add(cell.down);
        is_below(column, self.columns)
            && is_below(row, self.rows)
            && !self.pillars.contains(&Spot { column, row })
    }
}
