// A sled of one cell on a floor without pillars, where one place is closed at one instant.
ghost use Rattle.std.specs.Prelude.{◌≡◌, ◌+◌, not, ◌&&◌, ◌==◌};
ghost use Rattle.walk.specs.Sleds.{stands};

use walk::standing::Standing;
use walk::weight::{Step, Steps};

#[derive(Clone, Copy)]
pub(crate) struct Closed {
    pub(crate) floor: Standing,
    pub(crate) place: u8,
    pub(crate) instant: u8,
}

impl Steps<bool> for Closed {
    ghost step = { λ s t p q. (stands s.floor.at p && stands s.floor.at q) && (not (p == s.place && t == s.instant) && not (q == s.place && t + 1 == s.instant)) };

    fn weight(&self, taken: Step) -> bool {
        let Step { instant, from, to } = taken;
        let stands = self.floor.at[from as usize] & self.floor.at[to as usize];
        let leaves = from == self.place && instant == self.instant;
        let comes = to == self.place && u16::from(instant) + 1 == u16::from(self.instant);
        stands & !leaves & !comes
    }
}
