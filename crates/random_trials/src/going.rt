// Sleds that go one step, and whether two of them collide in it.
use crate::case::Spot;
use crate::cells::Offset;

// From a place to the same place or to a neighbour.
#[derive(Clone, Copy)]
pub struct Going {
    pub from: Spot,
    pub to: Spot,
}

impl Going {
    pub fn is_step(self) -> bool {
        let across = self.from.column.abs_diff(self.to.column);
        let down = self.from.row.abs_diff(self.to.row);
        matches!((across, down), (0, 0) | (0, 1) | (1, 0))
    }
}

#[derive(Clone, Copy)]
enum Moment {
    Start,
    Middle,
    End,
}

const MOMENTS: [Moment; 3] = [Moment::Start, Moment::Middle, Moment::End];

// Where a cell lies, in halves of a cell.
#[derive(Clone, Copy)]
struct Halves {
    across: i8,
    down: i8,
}

// Where a cell of a sled lies at a moment of its step.
fn cell_at(moment: Moment, going: Going, cell: Offset) -> Halves {
    let (one, other) = match moment {
        Moment::Start => (going.from, going.from),
        Moment::Middle => (going.from, going.to),
        Moment::End => (going.to, going.to),
    };
    Halves {
        across: in_halves(one.column, other.column, cell.across),
        down: in_halves(one.row, other.row, cell.down),
    }
}

// Twice the way to the middle between two numbers, and twice an offset from there.
fn in_halves(one: i8, other: i8, offset: i8) -> i8 {
    one.saturating_add(other)
        .saturating_add(offset)
        .saturating_add(offset)
}

// Whether two cells have some part in common: each is two halves wide and high.
fn overlap(a: Halves, b: Halves) -> bool {
    a.across.abs_diff(b.across) < 2 && a.down.abs_diff(b.down) < 2
}

// A sled on its way: its cells, and its step.
#[derive(Clone, Copy)]
pub struct Way<'a> {
    pub cells: &'a [Offset],
    pub going: Going,
}

// Whether some cell of one sled and some cell of the other overlap at the start, in the middle or at the end of the step.
pub fn collide(a: Way, b: Way) -> bool {
    MOMENTS.iter().any(|moment| overlap_at(*moment, a, b))
}

fn overlap_at(moment: Moment, a: Way, b: Way) -> bool {
    a.cells.iter().any(|p| {
        let p = cell_at(moment, a.going, *p);
        b.cells
            .iter()
            .any(|q| overlap(p, cell_at(moment, b.going, *q)))
    })
}
