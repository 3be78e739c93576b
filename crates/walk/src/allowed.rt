// Allowed steps as weights of any kind.
ghost use Rattle.std.specs.Prelude.{◌≡◌};
ghost use Rattle.walk.specs.Workings.{allowance};

use crate::weight::{Step, Steps, Weight};

// An allowed step weighs one, any other nought.
#[derive(Drop)]
pub(crate) struct Allowed<'a, S> {
    pub(crate) steps: &'a S,
}

impl<'a, W: Weight, S: Steps<bool>> Steps<W> for Allowed<'a, S> {
    ghost step = { λ r t p q. allowance W.Weight.ops (S.Steps.step r.steps.now) t p q };

    fn weight(&self, taken: Step) -> W {
        if self.steps.weight(taken) {
            W::one()
        } else {
            W::nought()
        }
    }
}
