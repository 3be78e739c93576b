// How many steps a route has: from 1 to 63.
ghost use Rattle.std.specs.Prelude.{◌≤◌};

mod calls;

// One more than the most steps: the instants of the longest route.
pub const MAX_INSTANTS: usize = 64;

#[derive(Clone, Copy, PartialEq, Debug)]
pub struct Horizon {
    pub steps: u8,
    ghost least: { 1 ≤ steps },
    ghost most: { steps ≤ 63 },
}
