// The first conflict of a node's routes.
// The problem and the routes are two arguments: the one is the search's and the other a node's, so a struct of both would be made for each
// call, and make each clause longer.
ghost use Rattle.std.specs.Prelude.{◌≡◌, ◌+◌, ◌<◌};
ghost use Rattle.std.specs.Option.{option_map};
ghost use Rattle.tree.specs.Plans.{meet_at, collide_in};
ghost use Rattle.tree.specs.Conflicts.{first_conflict};
ghost use Rattle.engine.specs.Scans.{scanned};
ghost use Rattle.engine.specs.Table.{plan_of, conflict_of};

use super::node::{MAX_SLEDS, Route};
use super::placed::{at, going};
use super::problem::Problem;
use super::scan::{Pair, first_pair};
use walk::horizon::MAX_INSTANTS;

// Two sleds that meet at an instant, or collide in the step that leaves it.
#[derive(Clone, Copy, PartialEq, Debug)]
pub(crate) enum Conflict {
    Meeting(Pair),
    Collision(Pair),
}

// The first two sleds that meet at an instant up to the horizon.
fn first_meeting<P: Problem>(problem: &P, routes: &[Route; MAX_SLEDS]) -> Option<Pair>
    ensures { result ≡ scanned (P.Problem.model problem.now).setting.sleds (meet_at (P.Problem.model problem.now).setting (plan_of (P.Problem.model problem.now).setting routes.now)) ((P.Problem.model problem.now).setting.horizon + 1) }
{
    let instants = problem.horizon().steps + 1;
    first_pair(
        problem.sleds(),
        instants,
        |pair|
            requires { (pair.instant < MAX_INSTANTS) × ((pair.first < MAX_SLEDS) × (pair.second < MAX_SLEDS)) }
        {
            problem.meets(
                at(routes, pair.first, pair.instant),
                at(routes, pair.second, pair.instant),
            )
        },
    )
}

// The first two sleds that collide in a step before the horizon.
fn first_collision<P: Problem>(problem: &P, routes: &[Route; MAX_SLEDS]) -> Option<Pair>
    ensures { result ≡ scanned (P.Problem.model problem.now).setting.sleds (collide_in (P.Problem.model problem.now).setting (plan_of (P.Problem.model problem.now).setting routes.now)) (P.Problem.model problem.now).setting.horizon }
{
    let steps = problem.horizon().steps;
    first_pair(
        problem.sleds(),
        steps,
        |pair|
            requires { (pair.instant + 1 < MAX_INSTANTS) × ((pair.first < MAX_SLEDS) × (pair.second < MAX_SLEDS)) }
        {
            problem.collides(
                going(routes, pair.first, pair.instant),
                going(routes, pair.second, pair.instant),
            )
        },
    )
}

// The first conflict: instant by instant the pairs that meet, then step by step those that collide.
pub(crate) fn first_conflict<P: Problem>(
    problem: &P,
    routes: &[Route; MAX_SLEDS],
) -> Option<Conflict>
    ensures { option_map conflict_of result ≡ first_conflict (P.Problem.model problem.now).setting (plan_of (P.Problem.model problem.now).setting routes.now) }
{
    first_meeting(problem, routes)
        .map(Conflict::Meeting)
        .or_else(|| first_collision(problem, routes).map(Conflict::Collision))
}
