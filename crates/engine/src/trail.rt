// The constraints of a node and its ancestors.
ghost use Rattle.std.specs.Prelude.{◌+◌, ◌<◌, ◌≤◌, List, [], ◌∷◌, length, slice_index_or, vec_len};
ghost use Rattle.few.specs.Told.{told};
ghost use Rattle.tree.specs.Constraints as constraints;
ghost use Rattle.tree.specs.Tree as tree;
ghost use Rattle.engine.specs.Model.{Model};
ghost use Rattle.engine.specs.Table.{Tracks, blank, sled_constraint_of};
ghost use Rattle.engine.specs.Forbids.{Collected, FitsTable};

use super::forbidden::Forbidden;
use super::node::{MAX_MOVES, SledConstraint};
use super::table::NodeTable;

// Adds what the trail of a node forbids a sled.
fn add_trail(table: &NodeTable, number: usize, sled: usize, forbidden: &mut Forbidden)
    requires { (number < vec_len table.now.nodes) × (length (told forbidden.old.moves) + number ≤ MAX_MOVES) }
    ensures { (m : Model) (xs : List tree.Node) (all : List constraints.Constraint) → Tracks m table.now.nodes.items xs → Collected forbidden.old (constraints.constraints_on sled (slice_index_or xs number blank).trail) all → Collected forbidden.new [] all }
{
    let nodes = table.records();
    // By hand: of `successors` it stays open that they end; here the number shows that, and that there is room for the moves.
    let mut at = number;
    while let Some(branch) = nodes[at].branch {
        if branch.own.sled == sled {
            forbidden.add(branch.own.constraint);
        }
        at = branch.parent as usize;
    }
}

// What a constraint and the trail of a node forbid the constrained sled.
pub(crate) fn collect(table: &NodeTable, number: usize, own: SledConstraint) -> Forbidden
    requires { (number < vec_len table.now.nodes) × FitsTable own.constraint }
    ensures { (m : Model) (xs : List tree.Node) → Tracks m table.now.nodes.items xs → Collected result [] (constraints.constraints_on own.sled (sled_constraint_of own ∷ (slice_index_or xs number blank).trail)) }
{
    let mut forbidden = Forbidden::nothing();
    forbidden.add(own.constraint);
    add_trail(table, number, own.sled, &mut forbidden);
    forbidden
}
