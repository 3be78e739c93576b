// Steps taken backwards.
ghost use Rattle.std.specs.Prelude.{◌≡◌, ◌-◌};

use crate::weight::{Step, Steps};

// A walk over these from a goal goes back in time from the instant `last`.
#[derive(Drop)]
pub(crate) struct Reversed<'a, S> {
    pub(crate) steps: &'a S,
    pub(crate) last: u8,
}

impl<'a, W, S: Steps<W>> Steps<W> for Reversed<'a, S> {
    ghost step = { λ r t p q. S.Steps.step r.steps.now (r.last - 1 - t) q p };

    fn weight(&self, taken: Step) -> W {
        self.steps.weight(Step {
            instant: self.last.saturating_sub(1).saturating_sub(taken.instant),
            from: taken.to,
            to: taken.from,
        })
    }
}
