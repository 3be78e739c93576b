// The two constraints that a conflict calls for.
// The problem and the routes are two arguments: the one is the search's and the other a node's, so a struct of both would be made for each
// call, and make each clause longer.
ghost use Rattle.std.specs.Prelude.{◌≡◌, ◌+◌, ◌<◌, slice_index};
ghost use Rattle.tree.specs.Conflicts as conflicts;
ghost use Rattle.tree.specs.Tree as tree;
ghost use Rattle.engine.specs.Model.{search_of};
ghost use Rattle.engine.specs.Table.{plan_of, sled_constraint_of, conflict_of, LiesIn};

use super::conflict::Conflict;
use super::node::{Constraint, MAX_SLEDS, Route, SledConstraint};
use super::placed::{at, step};
use super::problem::Problem;

// The constraints on the lower and on the higher sled: at an instant the two sets of the rule, in a step that of each sled.
pub(crate) fn split<P: Problem>(
    problem: &P,
    routes: &[Route; MAX_SLEDS],
    conflict: Conflict,
) -> (SledConstraint, SledConstraint)
    requires { conflicts.HasConflict (P.Problem.model problem.now).setting (plan_of (P.Problem.model problem.now).setting routes.now) (conflict_of conflict) }
    ensures first { (x : tree.Node) → x.routes ≡ plan_of (P.Problem.model problem.now).setting routes.now → tree.first_constraint (search_of (P.Problem.model problem.now)) x (conflict_of conflict) ≡ sled_constraint_of result.0 }
    ensures second { (x : tree.Node) → x.routes ≡ plan_of (P.Problem.model problem.now).setting routes.now → tree.second_constraint (search_of (P.Problem.model problem.now)) x (conflict_of conflict) ≡ sled_constraint_of result.1 }
    ensures lies { (LiesIn (P.Problem.model problem.now).setting result.0) × (LiesIn (P.Problem.model problem.now).setting result.1) }
{
    let (pair, lower, higher) = match conflict {
        Conflict::Meeting(pair) => {
            let lower = at(routes, pair.first, pair.instant);
            let higher = at(routes, pair.second, pair.instant);
            let sets = problem.splits(lower, higher);
            (
                pair,
                Constraint::Places(pair.instant, sets.lower),
                Constraint::Places(pair.instant, sets.higher),
            )
        }
        Conflict::Collision(pair) => {
            let lower = step(routes, pair.first, pair.instant);
            let higher = step(routes, pair.second, pair.instant);
            (pair, Constraint::Move(lower), Constraint::Move(higher))
        }
    };
    (
        SledConstraint {
            sled: pair.first,
            constraint: lower,
        },
        SledConstraint {
            sled: pair.second,
            constraint: higher,
        },
    )
}
