// The rule of just the lower sled's place, and every place where the other shares a cell with it.
ghost use Rattle.std.specs.Prelude.{◌≡◌, ◌==◌};
ghost use Rattle.split.specs.Rules.{one_sided_sets, same_place};
ghost use Rattle.std.proofs.lemmas.Bool.{and_parts, eqb-true};
ghost use Rattle.geometry.specs.Shares.{share_cell};
ghost use Rattle.split.specs.Situations.{on_board, meet};
ghost use Rattle.std.proofs.Common.{rules};

use crate::SplitRule;
use crate::pair::{Pair, Side};
use crate::single::meets;
use fleet::Fleet;
use geometry::sharing::shares_cell;
use grid::place::Place;

#[derive(Clone, Copy)]
pub struct OneSided;

impl SplitRule for OneSided {
    ghost sets = { λ _. one_sided_sets };

    ghost lower = { Prim.search rules };

    ghost upper = { Prim.search rules };

    ghost share = { λ r s w z terms lower upper.
        let same = (and_parts (meet s) (same_place s.u w) lower).1 in
        let share = (and_parts (on_board z) (share_cell (s.sleds s.i) s.u (s.sleds s.j) z) (and_parts (meet s) _ upper).1).1 in
        let (across, down) = and_parts (s.u.column == w.column) (s.u.row == w.row) same in
        rw (eqb-true _ _ across, eqb-true _ _ down) at share };

    ghost only = { Prim.search rules };

    // As with single places but for the upper side; a function for both would take that side as a closure.
    fn contains<F: Fleet>(&self, fleet: &F, pair: Pair, side: Side, w: Place) -> bool {
        meets(fleet, pair)
            && match side {
                Side::Lower => w == pair.u,
                Side::Upper => shares_cell(fleet, Pair { v: w, ..pair }),
            }
    }
}
