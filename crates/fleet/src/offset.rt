// An offset of a sled, or the difference of two: how far across, to the right, and how far down.
ghost use Rattle.std.specs.Prelude.{◌≡◌, ◌&&◌, SomeIff};
ghost use Rattle.fleet.specs.Scans.{within};
ghost use Rattle.fleet.specs.Sums.{sum_of, IsHeld};

use crate::scan::is_within;

// Without bounds, as a fleet answers for every offset. Who adds to one asks that it is near: a type that says so would be taken
// apart again at each question to a fleet.
#[derive(Clone, Copy, PartialEq, Debug)]
pub struct Offset {
    pub dx: i8,
    pub dy: i8,
}

impl Offset {
    // One offset after the other, where both parts are numbers of eight bits.
    pub(crate) fn checked_add(self, other: Offset) -> Option<Offset>
        ensures { SomeIff result (IsHeld (sum_of self other)) (sum_of self other) }
    {
        Some(Offset {
            dx: self.dx.checked_add(other.dx)?,
            dy: self.dy.checked_add(other.dy)?,
        })
    }

    // Whether both parts lie from -n to n.
    pub fn is_within(self, n: u8) -> bool
        ensures { result ≡ (within n self.dx && within n self.dy) }
    {
        is_within(n, self.dx) && is_within(n, self.dy)
    }
}
