// The layered walk: from a start, step by step, each place gets the sum over all step sequences of the product of their step weights.
ghost use Rattle.std.specs.Prelude.{◌≡◌, ◌<◌, ◌≤◌, length, drop, MatchResult};
ghost use Rattle.walk.specs.Promises.{Refused, Walked};
ghost use Rattle.walk.specs.Sequences.{total, Row};
ghost use Rattle.walk.specs.Workings.{stepped};

use crate::rows::{Layer, begin, copy, write_begin};
use crate::weight::{Step, Steps, Weight};
use fault::cause::{Cause, Fault};
use grid::board::neighbour;
use grid::moves::MOVES;
use grid::place::BOARD_PLACES;
use std::array;

// What one more step makes of a row at one place: the sum over the places that a step leads from.
fn gather<W: Weight + Copy, S: Steps<W>>(steps: &S, instant: u8, row: &[W], to: u8) -> W
    requires { BOARD_PLACES ≤ length row.now }
    ensures { result ≡ stepped W.ops (S.step steps.now) instant row.now to }
{
    let mut sum = W::nought();
    // A fold over the sides is no plainer, and takes a quarter longer.
    for towards in MOVES {
        if let Some(from) = neighbour(to, towards) {
            let weight = steps.weight(Step { instant, from, to });
            sum = sum.plus(row[from as usize].times(weight));
        }
    }
    sum
}

// What one more step makes of a row.
pub(crate) fn advance<W: Weight + Copy, S: Steps<W>>(
    steps: &S,
    instant: u8,
    row: &Layer<W>,
) -> Layer<W>
    ensures { Row W.ops (stepped W.ops (S.step steps.now) instant row.now) result }
{
    array::from_fn(
        |to|
            requires { to < BOARD_PLACES }
            ensures { result ≡ stepped W.ops (S.step steps.entry.now) instant row.entry.now to }
        { gather(steps, instant, row, to as u8) },
    )
}

// The row of `count` steps from `start`: at each place the total over all sequences of that many steps that end there.
pub(crate) fn walk_row<W: Weight + Copy, S: Steps<W>>(steps: &S, start: u8, count: u8) -> Layer<W>
    ensures { Row W.ops (total W.ops (S.step steps.now) count 0 start) result }
{
    let mut row = begin(start);
    // A fold is no plainer: its closure carries a clause, which the loop's body does without, and each row goes through it by value.
    for instant in 0..count {
        row = advance(steps, instant, &row);
    }
    row
}

// Writes into the first 256 entries of a lent row what one more step makes of another.
fn write_step<W: Weight + Copy, S: Steps<W>>(steps: &S, instant: u8, row: &[W], out: &mut [W])
    requires { (BOARD_PLACES ≤ length row.now) × (BOARD_PLACES ≤ length out.old) }
    ensures made { Row W.ops (stepped W.ops (S.step steps.now) instant row.now) out.new }
    ensures rest { drop BOARD_PLACES out.new ≡ drop BOARD_PLACES out.old }
{
    for (to, weight) in out[..BOARD_PLACES].iter_mut().enumerate() {
        *weight = gather(steps, instant, row, to as u8);
    }
}

// Walks `count` steps from `start` in the first 256 entries of two lent rows. A row of weights is as large as the caller makes a weight, so none is put on the stack.
fn walk_lent<W: Weight + Copy, S: Steps<W>>(
    steps: &S,
    start: u8,
    count: u8,
    row: &mut [W],
    spare: &mut [W],
)
    requires { (BOARD_PLACES ≤ length row.old) × (BOARD_PLACES ≤ length spare.old) }
    ensures { Walked W.ops (S.step steps.now) count start row.old spare.old row.new spare.new }
{
    write_begin(start, row);
    write_begin(start, spare);
    for instant in 0..count {
        write_step(steps, instant, row, spare);
        copy(spare, row);
    }
}

// Walks `count` steps from `start`, and writes into the first 256 entries of two rows what each place then has; shorter rows are refused.
// Both rows are the caller's, and are promised to hold it.
pub fn walk<W: Weight + Copy, S: Steps<W>>(
    steps: &S,
    start: u8,
    count: u8,
    row: &mut [W],
    spare: &mut [W],
) -> Result<(), Fault>
    ensures { MatchResult result (λ _. Walked W.ops (S.step steps.now) count start row.old spare.old row.new spare.new) (Refused row.old spare.old row.new spare.new) }
{
    if row.len() < BOARD_PLACES || spare.len() < BOARD_PLACES {
        return Err(Cause::BufferTooShort.into());
    }
    walk_lent(steps, start, count, row, spare);
    Ok(())
}
