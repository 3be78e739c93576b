// The route of one sled.
ghost use Rattle.std.specs.Prelude.{◌≡◌, suc, ◌<◌, List, [], take};
ghost use Rattle.std.specs.Option.{option_map};
ghost use Rattle.std.specs.List.{AllByRecursion};
ghost use Rattle.tree.specs.Constraints as constraints;
ghost use Rattle.tree.specs.Choice.{first_choice};
ghost use Rattle.engine.specs.Forbids.{permitted, Collected, InTime};

use super::forbidden::Forbidden;
use super::lone::LoneSled;
use super::node::Route;
use super::problem::Problem;
use walk::horizon::MAX_INSTANTS;
use walk::route::first_route;
use walk::weight::{Step, Steps};

// The steps of a sled that the problem allows and the table does not forbid.
#[derive(Drop)]
struct SledSteps<'a, P> {
    lone: LoneSled<'a, P>,
    forbidden: &'a Forbidden,
}

impl<'a, P: Problem> Steps<bool> for SledSteps<'a, P> {
    ghost step = { λ x t p q. permitted (P.Problem.model x.lone.problem.now) x.forbidden.now x.lone.sled t p q };

    fn weight(&self, taken: Step) -> bool {
        (taken.instant as usize) < MAX_INSTANTS - 1
            && self.lone.weight(taken)
            && !self.forbidden.forbids(taken)
    }
}

// The first route of least cost of a sled, or nothing where there is none.
pub(crate) fn plan_sled<'a, P: Problem>(
    problem: &'a P,
    forbidden: &'a Forbidden,
    sled: usize,
) -> Option<Route>
    requires { sled < (P.Problem.model problem.now).setting.sleds }
    ensures { (bs : List constraints.Constraint) → Collected forbidden.now [] bs → AllByRecursion (InTime (P.Problem.model problem.now).setting) bs → option_map (take (suc (P.Problem.model problem.now).setting.horizon)) result ≡ first_choice (P.Problem.model problem.now).setting sled bs }
{
    let lone = LoneSled { problem, sled };
    let errand = lone.errand();
    let steps = SledSteps { lone, forbidden };
    let found = first_route(&steps, errand)?;
    Some(found.places)
}
