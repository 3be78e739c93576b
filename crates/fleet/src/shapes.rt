// Sleds that are given by their shapes.
ghost use Rattle.std.specs.Prelude.{◌≡◌, true, ℤ};
ghost use Rattle.fleet.specs.Offsets.{Offsets, NearSet};

use crate::offset::Offset;
use crate::{Fleet, MAX_SLEDS};
use fault::cause::{Cause, Fault};
use few::Few;

// A shape by its meaning: the set of its offsets, of which there is one; each part of an offset is from -7 to 7.
pub trait Shape: Copy {
    ghost covers: { Self → Offsets };

    // What fills memory where no sled is.
    const FILLER: Self;

    fn has(&self, offset: Offset) -> bool
        ensures { result ≡ covers self.now offset.dx offset.dy };

    ghost near: { (shape : Self) → NearSet (covers shape) };

    ghost some: { (shape : Self) → (x : ℤ) × (y : ℤ) × (covers shape x y ≡ true) };
}

// The shapes of at most six sleds.
#[derive_where(Clone, Copy; S: Copy)]
pub struct Shapes<S> {
    sleds: Few<S, MAX_SLEDS>,
}

impl<S: Shape> Shapes<S> {
    ghost use Rattle.std.specs.Prelude.{[], ◌∷◌, ◌++◌};
    ghost use Rattle.fleet.specs.ShapeFleets.{shapes_of, Joined};

    // No sled yet.
    pub fn new() -> Shapes<S>
        ensures { shapes_of result ≡ [] }
    {
        Shapes {
            sleds: Few::new(S::FILLER),
        }
    }

    // One sled more; at most six.
    pub(crate) fn join(&mut self, shape: S) -> Result<(), Fault>
        ensures { Joined shape self.old self.new result }
    {
        self.sleds.push(shape).map_err(|_| Cause::SledCount.into())
    }
}

impl<S: Shape> Fleet for Shapes<S> {
    ghost use Rattle.fleet.specs.Lists.{sleds_of};
    ghost use Rattle.fleet.specs.ShapeFleets.{shapes_of, sled_count};
    ghost use Rattle.fleet.specs.SledLists.{sled_below, near_all, some_each};
    ghost use Rattle.few.proofs.Counts.{at_most};

    ghost size = { sled_count };

    ghost offsets = { λ f. sleds_of S.Shape.covers (shapes_of f) };

    ghost few = { λ f. at_most f.sleds };

    ghost only = { λ f. sled_below S.Shape.covers (shapes_of f) };

    ghost near = { λ f. near_all S.Shape.covers S.Shape.near (shapes_of f) };

    ghost some = { λ f. some_each S.Shape.covers S.Shape.some (shapes_of f) };

    fn count(&self) -> u8 {
        self.sleds.len() as u8
    }

    fn has(&self, sled: u8, offset: Offset) -> bool {
        self.sleds
            .as_slice()
            .get(sled as usize)
            .is_some_and(|shape| shape.has(offset))
    }
}
