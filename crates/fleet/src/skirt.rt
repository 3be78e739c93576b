// A margin around each sled of a fleet.
ghost use Rattle.std.specs.Prelude.{◌≤◌};

use crate::MAX_SLEDS;

mod calls;

#[derive(Clone, Copy)]
struct Margin {
    cells: u8,
    ghost narrow: { cells ≤ 3 },
}

// One margin for each sled that the fleet below may have.
#[derive(Drop)]
pub struct Skirt<F> {
    inner: F,
    margins: [Margin; MAX_SLEDS],
}
