// How one sled moves in a step, as seen from another.
ghost use Rattle.std.specs.Prelude.{◌≡◌, ◌-ℤ◌};
ghost use Rattle.grid.specs.Moves.{across, down};
ghost use Rattle.geometry.specs.Overlaps.{Short};

use grid::moves::Move;

// Cells across, to the right, and down: at most two of each. An offset of a sled may have more.
#[derive(Clone, Copy, PartialEq, Debug)]
pub struct Step {
    pub dx: i8,
    pub dy: i8,
    ghost across: { Short dx },
    ghost down: { Short dy },
}

// The first sled's move less the second's, across and down, by the two moves: north, west, wait, east, south.
// Written out: it is a table to be read beside the definition, and to be looked up in one step.
const RELATIVE: [[(i8, i8); 5]; 5] = [
    [(0, 0), (1, -1), (0, -1), (-1, -1), (0, -2)],
    [(-1, 1), (0, 0), (-1, 0), (-2, 0), (-1, -1)],
    [(0, 1), (1, 0), (0, 0), (-1, 0), (0, -1)],
    [(1, 1), (2, 0), (1, 0), (0, 0), (1, -1)],
    [(0, 2), (1, 1), (0, 1), (-1, 1), (0, 0)],
];

// The move a less the move b.
pub fn relative(a: Move, b: Move) -> Step
    ensures across { result.dx ≡ across a -ℤ across b }
    ensures down { result.dy ≡ down a -ℤ down b }
{
    let (dx, dy) = RELATIVE[a as usize][b as usize];
    Step { dx, dy }
}
