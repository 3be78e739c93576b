// A walk's rows after every number of steps.
ghost use Rattle.std.specs.Prelude.{◌≡◌, ℕ, ◌<◌, ◌≤◌, slice_index_or, []};
ghost use Rattle.walk.specs.Sequences.{total, Row};

use crate::horizon::MAX_INSTANTS;
use crate::layers::advance;
use crate::rows::{Layer, begin};
use crate::weight::{Steps, Weight};

// Writes the row of number k, which is what a walk of k steps from `start` gives, for each k up to `count`.
pub(crate) fn chart<W: Weight + Copy, S: Steps<W>>(
    steps: &S,
    start: u8,
    count: u8,
    table: &mut [Layer<W>; MAX_INSTANTS],
)
    requires { count < MAX_INSTANTS }
    ensures { (k : ℕ) → k ≤ count → Row W.ops (total W.ops (S.step steps.now) k 0 start) (slice_index_or table.new k []) }
{
    table[0] = begin(start);
    // By hand: a for_each would have this line as its closure, and there it stays open that both numbers are within the table.
    for done in 0..count {
        table[done as usize + 1] = advance(steps, done, &table[done as usize]);
    }
}
