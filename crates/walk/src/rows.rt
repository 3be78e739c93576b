// Rows of weights, one entry for each place of the board.
ghost use Rattle.std.specs.Prelude.{◌≡◌, ◌≤◌, if◌then◌else◌, nat_eq, ◌++◌, length, take, drop};
ghost use Rattle.walk.specs.Sequences.{Row};

use crate::weight::Weight;
use grid::place::BOARD_PLACES;
use std::array;

pub(crate) type Layer<W> = [W; BOARD_PLACES];

// One at the start, nought elsewhere.
fn unit<W: Weight>(start: u8, place: usize) -> W
    ensures { result ≡ (if nat_eq start place then W.ops.one else W.ops.nought) }
{
    if place == start as usize {
        W::one()
    } else {
        W::nought()
    }
}

// The row of the sequences of no step: one at the start, nought elsewhere.
pub(crate) fn begin<W: Weight + Copy>(start: u8) -> Layer<W>
    ensures { Row W.ops (λ q. (if nat_eq start q then W.ops.one else W.ops.nought)) result }
{
    array::from_fn(
        |place|
            ensures { result ≡ (if nat_eq start place then W.ops.one else W.ops.nought) }
        { unit(start, place) },
    )
}

// Writes the same into the first 256 entries of a lent row.
pub(crate) fn write_begin<W: Weight + Copy>(start: u8, row: &mut [W])
    requires { BOARD_PLACES ≤ length row.old }
    ensures made { Row W.ops (λ q. (if nat_eq start q then W.ops.one else W.ops.nought)) row.new }
    ensures rest { drop BOARD_PLACES row.new ≡ drop BOARD_PLACES row.old }
{
    for (place, weight) in row[..BOARD_PLACES].iter_mut().enumerate() {
        *weight = unit(start, place);
    }
}

// Copies the first 256 entries of a row into another.
pub(crate) fn copy<W: Copy>(from: &[W], to: &mut [W])
    requires { (BOARD_PLACES ≤ length from.now) × (BOARD_PLACES ≤ length to.old) }
    ensures { to.new ≡ take BOARD_PLACES from.now ++ drop BOARD_PLACES to.old }
{
    to[..BOARD_PLACES].copy_from_slice(&from[..BOARD_PLACES]);
}
