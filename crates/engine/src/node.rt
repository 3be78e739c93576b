// The nodes of the tree as records.
pub use grid::limits::MAX_SLEDS;
use grid::place::BOARD_PLACES;
use walk::horizon::MAX_INSTANTS;
use walk::weight::Step;

// The largest node limit.
pub const MAX_NODES: u16 = 512;

// The most moves that a trail forbids one sled: one for each node.
pub(crate) const MAX_MOVES: usize = MAX_NODES as usize;

// A route's places at the instants from 0 to the horizon; later entries do not count.
pub type Route = [u8; MAX_INSTANTS];

// Whether each place is in a set.
pub type PlaceSet = [bool; BOARD_PLACES];

// The places that the two sleds of a meeting are kept from: the one of lower number, and the other.
#[derive(Clone, Copy)]
pub struct Sets {
    pub lower: PlaceSet,
    pub higher: PlaceSet,
}

// What a node forbids one sled: the places of a set at an instant, or one step.
#[derive(Clone, Copy)]
pub(crate) enum Constraint {
    Places(u8, PlaceSet),
    Move(Step),
}

#[derive(Clone, Copy)]
pub(crate) struct SledConstraint {
    pub(crate) sled: usize,
    pub(crate) constraint: Constraint,
}

// How a node branches off: its parent, and the constraint of its own. A parent is told by its number: both children share it, and memory
// for all nodes is taken once.
#[derive(Clone, Copy)]
pub(crate) struct Branch {
    pub(crate) parent: u16,
    pub(crate) own: SledConstraint,
}

// One record of the table. The root alone branches off no other.
#[derive(Clone, Copy)]
pub(crate) struct Node {
    pub(crate) branch: Option<Branch>,
    pub(crate) routes: [Route; MAX_SLEDS],
    pub(crate) sum: u16,
    pub(crate) is_open: bool,
}

// How far the tree is; a solved one has the number of the node that solves it, which is not told.
#[derive(Clone, Copy)]
pub(crate) enum Verdict {
    Working,
    Solved(u16),
    Unsolvable,
    Full,
}
