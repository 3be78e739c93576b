// The sleds of one fleet, then those of another, at most six.
ghost use Rattle.std.specs.Prelude.{◌≡◌, ◌-◌};
ghost use Rattle.fleet.specs.Convoys.{convoy_size, convoy_sleds};
ghost use Rattle.std.proofs.Common.{arith, ⊎_elim, rules};
ghost use Rattle.std.proofs.lemmas.Bool.{cases_lt};
ghost use Rattle.std.proofs.lemmas.Bool.Decides.{nat_tests};

use crate::offset::Offset;
use crate::{Fleet, MAX_SLEDS};

#[derive(Drop)]
pub struct Convoy<A, B> {
    first: A,
    second: B,
}

impl<A: Fleet, B: Fleet> Convoy<A, B> {
    pub fn new(first: A, second: B) -> Convoy<A, B>
        ensures first { result.first ≡ first }
        ensures second { result.second ≡ second }
    {
        Convoy { first, second }
    }
}

impl<F: Fleet, G: Fleet> Fleet for Convoy<F, G> {
    ghost size = { λ c. convoy_size (F.Fleet.size c.first) (G.Fleet.size c.second) };

    ghost offsets = { λ c. convoy_sleds (F.Fleet.size c.first) (F.Fleet.offsets c.first) (G.Fleet.offsets c.second) };

    ghost few = { Prim.search rules };

    ghost only = { Prim.search rules };

    ghost near = { Prim.search rules };

    ghost some = { λ c s below.
        let n = F.Fleet.size c.first in
        ⊎_elim
        (λ front. let (x, y, has) = F.Fleet.some c.first s front in (x, y, Prim.grind (arith, nat_tests, has)))
        (λ back. let (x, y, has) = G.Fleet.some c.second (s - n) (omega arith) in (x, y, Prim.grind (arith, nat_tests, has)))
        (cases_lt s n) };

    fn count(&self) -> u8 {
        (self.first.count() + self.second.count()).min(MAX_SLEDS as u8)
    }

    fn has(&self, sled: u8, offset: Offset) -> bool {
        if sled as usize >= MAX_SLEDS {
            return false;
        }
        let front = self.first.count();
        if sled < front {
            self.first.has(sled, offset)
        } else {
            self.second.has(sled - front, offset)
        }
    }
}
