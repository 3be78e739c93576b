// The rule of all places that cover the first shared cell, by row and then column.
ghost use Rattle.std.specs.Prelude.{◌≡◌, Decides};
ghost use Rattle.grid.specs.Places.{position_of};
ghost use Rattle.split.specs.Situations.{situation, on_board, meet};
ghost use Rattle.split.specs.Rules.{shared_cell_sets, CoversFirst};
ghost use Rattle.std.proofs.lemmas.Bool.{and_from, and_parts};
ghost use Rattle.split.specs.SharedCellRuleLemmas.{board, first};
ghost use Rattle.split.specs.FirstCells.{both_cover};

use crate::SplitRule;
use crate::pair::{Pair, Side};
use fleet::Fleet;
use geometry::sharing::{covers_cell, first_shared_cell};
use grid::place::Place;

#[derive(Clone, Copy)]
pub struct SharedCell;

impl SplitRule for SharedCell {
    ghost sets = { λ _. shared_cell_sets };

    ghost lower = { λ r s terms e. and_from (meet s) _ e (and_from (on_board s.u) _ (board s e).0 (first s terms e).by_first) };

    ghost upper = { λ r s terms e. and_from (meet s) _ e (and_from (on_board s.v) _ (board s e).1 (first s terms e).by_second) };

    ghost share = { λ r s w z terms lower upper.
        let one = (and_parts (on_board w) _ (and_parts (meet s) _ lower).1).1 in
        let two = (and_parts (on_board z) _ (and_parts (meet s) _ upper).1).1 in
        both_cover (s.sleds s.i) w (s.sleds s.j) z (terms.near s.i) _ _ one two };

    ghost only = { λ r s side w terms e.
        let (meets, on_covers) = and_parts (meet s) _ e in
        (meets, (and_parts (on_board w) _ on_covers).0) };

    fn contains<F: Fleet>(&self, fleet: &F, pair: Pair, side: Side, w: Place) -> bool {
        covers_first_shared(fleet, pair, side, w)
    }
}

// Whether the sled of a side, at w, covers the first cell that sled i at u and sled j at v share.
fn covers_first_shared<F: Fleet>(fleet: &F, pair: Pair, side: Side, w: Place) -> bool
    ensures value { result ≡ shared_cell_sets (situation (F.Fleet.size fleet.now) (F.Fleet.offsets fleet.now) pair) side (position_of w) }
    ensures meaning { Decides result (CoversFirst (situation (F.Fleet.size fleet.now) (F.Fleet.offsets fleet.now) pair) side (position_of w)) }
{
    let sled = match side {
        Side::Lower => pair.i,
        Side::Upper => pair.j,
    };
    pair.i < pair.j
        && first_shared_cell(fleet, pair).is_some_and(|cell| covers_cell(fleet, sled, w, cell))
}
