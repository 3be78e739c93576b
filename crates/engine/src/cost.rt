// What routes cost.
// The problem and the routes are two arguments: the one is the search's and the other a node's, so a struct of both would be made for each
// call, and make each clause longer.
ghost use Rattle.std.specs.Prelude.{◌≡◌, ℕ, ◌+◌, ◌<◌, ◌≤◌, ◌≢◌, [], length, slice_index, slice_index_or, MatchOption};
ghost use Rattle.tree.specs.Routes.{settled, cost};
ghost use Rattle.tree.specs.Plans.{route, sum, makespan};
ghost use Rattle.engine.specs.Table.{plan_of};

use super::node::{MAX_SLEDS, Route};
use super::problem::Problem;
use walk::horizon::{Horizon, MAX_INSTANTS};

// The last instant of a row at which it is not at the goal.
fn last_away(row: &[u8], goal: u8) -> Option<usize>
    ensures { MatchOption result ((k : ℕ) → k < length row.now → slice_index row.now k ≡ goal) (λ last.
        (last < length row.now) × ((slice_index row.now last ≢ goal) × ((k : ℕ) → last < k → k < length row.now → slice_index row.now k ≡ goal))) }
{
    row.iter().rposition(|place| *place != goal)
}

// The first instant from which on a route stays at its goal, up to the horizon.
fn route_cost(route: &Route, goal: u8, horizon: Horizon) -> u8
    ensures cost { result ≡ settled goal route.now (horizon.steps + 1) }
    ensures low { result ≤ MAX_INSTANTS }
{
    let instants = horizon.steps as usize + 1;
    last_away(&route[..instants], goal).map_or(
        0,
        |last|
            requires { last < MAX_INSTANTS }
        { last as u8 + 1 },
    )
}

// What the route of a sled costs.
fn sled_cost<P: Problem>(problem: &P, routes: &[Route; MAX_SLEDS], sled: usize) -> u8
    requires { sled < (P.Problem.model problem.now).setting.sleds }
    ensures cost { result ≡ cost (P.Problem.model problem.now).setting sled (route (plan_of (P.Problem.model problem.now).setting routes.now) sled) }
    ensures low { result ≤ MAX_INSTANTS }
{
    route_cost(&routes[sled], problem.goal(sled), problem.horizon())
}

// The costs of all sleds together.
pub(crate) fn total_cost<P: Problem>(problem: &P, routes: &[Route; MAX_SLEDS]) -> u16
    ensures { result ≡ sum (P.Problem.model problem.now).setting (plan_of (P.Problem.model problem.now).setting routes.now) }
{
    (0..problem.sleds())
        .map(|sled| u16::from(sled_cost(problem, routes, sled)))
        .sum()
}

// The greatest of the costs of all sleds.
pub(crate) fn greatest_cost<P: Problem>(problem: &P, routes: &[Route; MAX_SLEDS]) -> u8
    ensures { result ≡ makespan (P.Problem.model problem.now).setting (plan_of (P.Problem.model problem.now).setting routes.now) }
{
    (0..problem.sleds())
        .map(|sled| sled_cost(problem, routes, sled))
        .max()
        .unwrap_or(0)
}
