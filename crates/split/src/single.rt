// The rule of just the two places.
ghost use Rattle.std.specs.Prelude.{◌≡◌};
ghost use Rattle.split.specs.Situations.{situation, meet};
ghost use Rattle.split.specs.Rules.{single_sets};
ghost use Rattle.std.proofs.Common.{rules};

use crate::SplitRule;
use crate::pair::{Pair, Side};
use fleet::Fleet;
use geometry::sharing::shares_cell;
use grid::place::Place;

#[derive(Clone, Copy)]
pub struct Single;

// Whether the sleds of a pair come in order and share a cell.
pub(crate) fn meets<F: Fleet>(fleet: &F, pair: Pair) -> bool
    ensures { result ≡ meet (situation (F.Fleet.size fleet.now) (F.Fleet.offsets fleet.now) pair) }
{
    pair.i < pair.j && shares_cell(fleet, pair)
}

impl SplitRule for Single {
    ghost sets = { λ _. single_sets };

    ghost lower = { Prim.search rules };

    ghost upper = { Prim.search rules };

    ghost share = { Prim.search rules };

    ghost only = { Prim.search rules };

    // As with one side but for the upper place; a function for both would take that side as a closure.
    fn contains<F: Fleet>(&self, fleet: &F, pair: Pair, side: Side, w: Place) -> bool {
        meets(fleet, pair)
            && match side {
                Side::Lower => w == pair.u,
                Side::Upper => w == pair.v,
            }
    }
}
