// What the engine holds.
ghost use Rattle.std.specs.Prelude.{◌≡◌, ◌≤◌, true, vec_len};
ghost use Rattle.engine.specs.declared.node.TheConstants.{MAX_NODES};
ghost use Rattle.engine.specs.WellFormed.{inside};

use super::node::Verdict;
use super::table::NodeTable;

// The nodes, the verdict and the node limit of the search that was opened last.
#[derive(Drop)]
pub struct Engine {
    pub(crate) table: NodeTable,
    pub(crate) verdict: Verdict,
    pub(crate) limit: u16,
    ghost high: { limit ≤ MAX_NODES },
    ghost solved: { inside (vec_len table.nodes) verdict ≡ true },
}
