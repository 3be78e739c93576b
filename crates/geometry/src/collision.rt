// Whether two sleds collide in one step.
ghost use Rattle.std.specs.Prelude.{◌≡◌, true, pos, ◌+ℤ◌, ◌-ℤ◌, Decides};
ghost use Rattle.grid.specs.declared.position.Position.{Position};
ghost use Rattle.grid.specs.Places.{position_of};
ghost use Rattle.fleet.specs.Offsets.{Near};
ghost use Rattle.geometry.specs.Shares.{share_cell};
ghost use Rattle.geometry.specs.Collisions.{struck, striking, collide, Collision, Leads};

use crate::overlap::Apart;
use crate::pair::Pair;
use crate::relative::{Step, relative};
use crate::sharing::cell_by;
use fleet::Fleet;
use fleet::offset::Offset;
use fleet::scan::any_offset;
use grid::moves::Move;

// How far the first sled's cell by an offset lies from the second's.
fn apart(pair: Pair, of_first: Offset, of_second: Offset) -> Apart
    requires first { Near of_first.dx × Near of_first.dy }
    requires second { Near of_second.dx × Near of_second.dy }
    ensures across { result.x ≡ (pos pair.u.column +ℤ of_first.dx) -ℤ (pos pair.v.column +ℤ of_second.dx) }
    ensures down { result.y ≡ (pos pair.u.row +ℤ of_first.dy) -ℤ (pos pair.v.row +ℤ of_second.dy) }
{
    let first = cell_by(pair.u, of_first);
    let second = cell_by(pair.v, of_second);
    Apart {
        x: first.column - second.column,
        y: first.row - second.row,
    }
}

// Whether an offset is one of the second sled and its cell overlaps with one of the first sled's during the step.
fn is_struck<F: Fleet>(
    fleet: &F,
    pair: Pair,
    step: Step,
    of_first: Offset,
    of_second: Offset,
) -> bool
    requires { Near of_first.dx × Near of_first.dy }
    ensures { result ≡ struck (pos pair.u.column +ℤ of_first.dx) (pos pair.u.row +ℤ of_first.dy) (F.Fleet.offsets fleet.now pair.j) (position_of pair.v) step.dx step.dy of_second.dx of_second.dy }
{
    fleet.has(pair.j, of_second) && apart(pair, of_first, of_second).overlaps(step)
}

// Whether an offset is one of the first sled and its cell overlaps with one of the second during the step.
fn strikes<F: Fleet>(fleet: &F, pair: Pair, step: Step, offset: Offset) -> bool
    ensures { result ≡ striking (F.Fleet.offsets fleet.now pair.i) (position_of pair.u) (F.Fleet.offsets fleet.now pair.j) (position_of pair.v) step.dx step.dy offset.dx offset.dy }
{
    fleet.has(pair.i, offset)
        && any_offset(|of_second| is_struck(fleet, pair, step, offset, of_second))
}

// Whether the first sled of a pair, moving by a, and the second, moving by b, collide.
pub fn collides<F: Fleet>(fleet: &F, pair: Pair, a: Move, b: Move) -> bool
    ensures value { result ≡ collide (F.Fleet.offsets fleet.now pair.i) (position_of pair.u) a (F.Fleet.offsets fleet.now pair.j) (position_of pair.v) b }
    ensures meaning { Decides result (Collision (F.Fleet.offsets fleet.now pair.i) (position_of pair.u) a (F.Fleet.offsets fleet.now pair.j) (position_of pair.v) b) }
    ensures either { result ≡ collide (F.Fleet.offsets fleet.now pair.j) (position_of pair.v) b (F.Fleet.offsets fleet.now pair.i) (position_of pair.u) a }
    ensures start { share_cell (F.Fleet.offsets fleet.now pair.i) (position_of pair.u) (F.Fleet.offsets fleet.now pair.j) (position_of pair.v) ≡ true → result ≡ true }
    ensures end { (w z : Position) → Leads (position_of pair.u) a w → Leads (position_of pair.v) b z → share_cell (F.Fleet.offsets fleet.now pair.i) w (F.Fleet.offsets fleet.now pair.j) z ≡ true → result ≡ true }
{
    let step = relative(a, b);
    any_offset(|offset| strikes(fleet, pair, step, offset))
}
