// Fleets: how many sleds there are, and which offsets each has.
#![tactic(auto)]

ghost use Rattle.std.specs.Prelude.{◌≡◌, ℕ, ◌≤◌, ◌+ℤ◌};
ghost use Rattle.fleet.specs.Offsets.{Sleds, OnlyBelow, AllNear, NoneEmpty};

use crate::offset::Offset;
pub use grid::limits::MAX_SLEDS;

pub mod convoy;
pub mod offset;
pub mod outlines;
pub mod rectangles;
pub mod scan;
pub mod shapes;
pub mod skirt;

// A fleet by its meaning: the number of sleds, and the set of offsets of each.
// The laws are its terms: at most six sleds; only these have offsets; each part of an offset is from -7 to 7; no sled is without one.
pub trait Fleet {
    ghost size: { Self → ℕ };

    ghost offsets: { Self → Sleds };

    fn count(&self) -> u8
        ensures { result ≡ size self.now };

    // Whether a sled has an offset: no, where there is no such sled.
    fn has(&self, sled: u8, offset: Offset) -> bool
        ensures { result ≡ offsets self.now sled offset.dx offset.dy };

    // Whether a sled has an offset that lies further by another.
    final fn has_moved(&self, sled: u8, offset: Offset, by: Offset) -> bool
        ensures { result ≡ offsets self.now sled (offset.dx +ℤ by.dx) (offset.dy +ℤ by.dy) }
    {
        offset
            .checked_add(by)
            .is_some_and(|moved| self.has(sled, moved))
    }

    ghost few: { (f : Self) → size f ≤ 6 };

    ghost only: { (f : Self) → OnlyBelow (size f) (offsets f) };

    ghost near: { (f : Self) → AllNear (offsets f) };

    ghost some: { (f : Self) → NoneEmpty (size f) (offsets f) };
}
