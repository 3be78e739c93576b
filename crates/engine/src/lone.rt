// A sled of a problem by itself.
ghost use Rattle.std.specs.Prelude.{◌≡◌};

use super::problem::Problem;
use walk::errand::Errand;
use walk::weight::{Step, Steps};

#[derive(Drop)]
pub struct LoneSled<'a, P> {
    pub problem: &'a P,
    pub sled: usize,
}

impl<'a, P: Problem> LoneSled<'a, P> {
    // What it has to do.
    pub fn errand(&self) -> Errand
        ensures start { result.start ≡ (P.Problem.model self.now.problem.now).setting.start self.now.sled }
        ensures goal { result.goal ≡ (P.Problem.model self.now.problem.now).setting.goal self.now.sled }
        ensures horizon { result.horizon.steps ≡ (P.Problem.model self.now.problem.now).setting.horizon }
    {
        Errand {
            start: self.problem.start(self.sled),
            goal: self.problem.goal(self.sled),
            horizon: self.problem.horizon(),
        }
    }
}

// The steps that the problem allows it.
impl<'a, P: Problem> Steps<bool> for LoneSled<'a, P> {
    ghost step = { λ x t u v. (P.Problem.model x.problem.now).allowed x.sled t u v };

    fn weight(&self, taken: Step) -> bool {
        self.problem.allows(self.sled, taken)
    }
}
