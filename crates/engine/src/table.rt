// The table of nodes.
ghost use Rattle.std.specs.Prelude.{◌≡◌, ◌+◌, ◌<◌, ◌≤◌, [], ◌++◌, length, IfOk, vec_len, vec_capacity, slice_index_or};
ghost use Rattle.std.specs.Option.{option_to_list};
ghost use Rattle.engine.specs.declared.node.TheConstants.{MAX_NODES};
ghost use Rattle.engine.specs.Least.{CheapestSoFar, closed_at};
ghost use Rattle.engine.specs.Table.{empty};
ghost use Rattle.engine.specs.WellFormed.{AllWellFormed, MadeWellFormed};

use super::node::{MAX_NODES, Node};
use std::alloc::{AllocError, Global};

// The records by their numbers. All memory is taken when the table is made, for the largest limit, and a record names only earlier
// ones.
#[derive(Drop)]
pub(crate) struct NodeTable {
    pub(crate) nodes: Vec<Node>,
    ghost few: { vec_len nodes ≤ MAX_NODES },
    ghost room: { MAX_NODES ≤ vec_capacity nodes },
    ghost formed: { AllWellFormed nodes.items },
}

impl NodeTable {
    pub(crate) fn new(heap: Global) -> Result<NodeTable, AllocError>
        ensures { IfOk result (λ t. t.nodes.items ≡ []) }
    {
        let nodes = Vec::with_capacity(heap, MAX_NODES as usize)?;
        Ok(NodeTable { nodes })
    }

    // Forgets all records.
    pub(crate) fn clear(&mut self)
        ensures rows { self.new.nodes.items ≡ [] }
        ensures len { vec_len self.new.nodes ≡ 0 }
    {
        self.nodes.clear();
    }

    pub(crate) fn len(&self) -> usize
        ensures { result ≡ vec_len self.now.nodes }
    {
        self.nodes.len()
    }

    pub(crate) fn records(&self) -> &[Node]
        ensures value { result.now ≡ self.now.nodes.items }
        ensures len { length result.now ≡ vec_len self.now.nodes }
    {
        self.nodes.as_slice()
    }

    // The node of a number.
    pub(crate) fn node(&self, number: u16) -> &Node
        requires { number < vec_len self.now.nodes }
        ensures { result.now ≡ slice_index_or self.now.nodes.items number empty }
    {
        &self.nodes[number as usize]
    }

    // Closes a node. That a number is one of the table's is asked where it is used: a type could not say it, as the table grows.
    pub(crate) fn close(&mut self, number: u16)
        requires { number < vec_len self.old.nodes }
        ensures rows { self.new.nodes.items ≡ closed_at self.old.nodes.items number }
        ensures len { vec_len self.new.nodes ≡ vec_len self.old.nodes }
    {
        self.nodes[number as usize].is_open = false;
    }

    // Fills the next record where a node was made.
    pub(crate) fn fill(&mut self, made: Option<Node>)
        requires room { vec_len self.old.nodes < MAX_NODES }
        requires formed { MadeWellFormed (vec_len self.old.nodes) made }
        ensures rows { self.new.nodes.items ≡ self.old.nodes.items ++ option_to_list made }
        ensures len { (vec_len self.old.nodes ≤ vec_len self.new.nodes) × (vec_len self.new.nodes ≤ vec_len self.old.nodes + 1) }
    {
        if let Some(node) = made {
            self.nodes.push_reserved(node);
        }
    }

    // The cheapest open node, the one of lowest number among equals.
    pub(crate) fn cheapest(&self) -> Option<u16>
        ensures { CheapestSoFar self.now.nodes.items (vec_len self.now.nodes) result }
    {
        self.nodes
            .iter()
            .enumerate()
            .filter(|(_, node)| node.is_open)
            .min_by_key(|(number, node)| (node.sum, *number))
            .map(
                |(number, _)|
                    requires { number < MAX_NODES }
                { number as u16 },
            )
    }
}
