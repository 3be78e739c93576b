// A node gives way to its children.
ghost use Rattle.std.specs.Prelude.{◌+◌, ◌<◌, ◌≤◌, List, vec_len, slice_index_or};
ghost use Rattle.tree.specs.Conflicts as conflicts;
ghost use Rattle.tree.specs.Tree as tree;
ghost use Rattle.engine.specs.Model.{search_of};
ghost use Rattle.engine.specs.Table.{plan_of, conflict_of, Tracks, empty, found_of};

use super::conflict::Conflict;
use super::grow::child;
use super::node::MAX_NODES;
use super::problem::Problem;
use super::split::split;
use super::table::NodeTable;

impl NodeTable {
    // Closes a node and makes its children, the lower sled's first.
    pub(crate) fn expand<P: Problem>(&mut self, problem: &P, number: u16, conflict: Conflict)
        requires room { (number < vec_len self.old.nodes) × (vec_len self.old.nodes + 2 ≤ MAX_NODES) }
        requires real { conflicts.HasConflict (P.Problem.model problem.now).setting (plan_of (P.Problem.model problem.now).setting (slice_index_or self.old.nodes.items number empty).routes) (conflict_of conflict) }
        ensures { (xs : List tree.Node) → Tracks (P.Problem.model problem.now) self.old.nodes.items xs → Tracks (P.Problem.model problem.now) self.new.nodes.items (tree.expand (search_of (P.Problem.model problem.now)) xs (found_of xs number) (conflict_of conflict)) }
    {
        let (first, second) = split(problem, &self.node(number).routes, conflict);
        let lower = child(problem, self, number, first);
        let higher = child(problem, self, number, second);
        self.close(number);
        self.fill(lower);
        self.fill(higher);
    }
}
