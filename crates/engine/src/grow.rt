// Making nodes.
ghost use Rattle.std.specs.Prelude.{◌≡◌, ℕ, ◌<◌, List, [], ◌∷◌, slice_index_or, vec_len};
ghost use Rattle.std.specs.Option.{option_map};
ghost use Rattle.tree.specs.Constraints as constraints;
ghost use Rattle.tree.specs.Tree as tree;
ghost use Rattle.engine.specs.WellFormed.{MadeWellFormed};
ghost use Rattle.engine.specs.Model.{search_of};
ghost use Rattle.engine.specs.Table.{plan_of, sled_constraint_of, LiesIn, Tracks, MadeAs, blank};

use super::cost::total_cost;
use super::forbidden::Forbidden;
use super::node::{Branch, MAX_SLEDS, Node, Route, SledConstraint};
use super::plan::plan_sled;
use super::problem::Problem;
use super::table::NodeTable;
use super::trail::collect;
use walk::horizon::MAX_INSTANTS;

// The first routes of least cost of all sleds, or nothing where one has none. Of the six rows only those of the problem's sleds count: a
// node keeps its routes in memory of one size, so that the table of nodes takes all its memory once.
fn plan_all<P: Problem>(problem: &P) -> Option<[Route; MAX_SLEDS]>
    ensures { option_map (plan_of (P.Problem.model problem.now).setting) result ≡ tree.routes_under (search_of (P.Problem.model problem.now)) [] }
{
    let forbidden = Forbidden::nothing();
    let mut routes = [[0; MAX_INSTANTS]; MAX_SLEDS];
    for (sled, route) in routes[..problem.sleds()].iter_mut().enumerate() {
        *route = plan_sled(problem, &forbidden, sled)?;
    }
    Some(routes)
}

// The root, which is not made where a sled has no route.
pub(crate) fn root<P: Problem>(problem: &P) -> Option<Node>
    ensures formed { (k : ℕ) → MadeWellFormed k result }
    ensures as_made { (above : constraints.Trail) (k : ℕ) → MadeAs (P.Problem.model problem.now) above k result (tree.make_node (search_of (P.Problem.model problem.now)) 0 []) }
{
    let routes = plan_all(problem)?;
    let sum = total_cost(problem, &routes);
    Some(Node {
        branch: None,
        routes,
        sum,
        is_open: true,
    })
}

// A child of a node under one more constraint, which is not made where the constrained sled has no route.
pub(crate) fn child<P: Problem>(
    problem: &P,
    table: &NodeTable,
    number: u16,
    own: SledConstraint,
) -> Option<Node>
    requires known { number < vec_len table.now.nodes }
    requires lies { LiesIn (P.Problem.model problem.now).setting own }
    ensures formed { (k : ℕ) → number < k → MadeWellFormed k result }
    ensures as_made { (xs : List tree.Node) (k : ℕ) → Tracks (P.Problem.model problem.now) table.now.nodes.items xs → number < k → MadeAs (P.Problem.model problem.now) (slice_index_or xs number blank).trail k result (tree.make_node (search_of (P.Problem.model problem.now)) number (sled_constraint_of own ∷ (slice_index_or xs number blank).trail)) }
{
    let forbidden = collect(table, number as usize, own);
    let route = plan_sled(problem, &forbidden, own.sled)?;
    let mut routes = table.node(number).routes;
    routes[own.sled] = route;
    let sum = total_cost(problem, &routes);
    Some(Node {
        branch: Some(Branch {
            parent: number,
            own,
        }),
        routes,
        sum,
        is_open: true,
    })
}
