// Rules that split a meeting of two sleds into two sets of places, of which the sleds are then barred.
#![tactic(auto)]

ghost use Rattle.std.specs.Prelude.{◌≡◌};
ghost use Rattle.grid.specs.Places.{position_of};
ghost use Rattle.split.specs.Situations.{Sets, situation, HoldsU, HoldsV, AllShare, OnlyMeeting};

use fleet::Fleet;
use grid::place::Place;
use pair::{Pair, Side};

pub mod one_sided;
pub mod pair;
pub mod shared_cell;
pub mod single;

// A rule by its meaning: two sets of places for each situation.
// The laws are its terms: where the two sleds meet, the first set holds u, the second holds v, and every two places of the two
// sets meet again; in all other cases both are empty, and no place beyond the board is in one.
pub trait SplitRule {
    ghost sets: { Self → Sets };

    // Whether w is in the set of a side. The four things asked stand by themselves: who asks holds them apart, and a rule takes them apart.
    fn contains<F: Fleet>(&self, fleet: &F, pair: Pair, side: Side, w: Place) -> bool
        ensures { result ≡ sets self.now (situation (F.Fleet.size fleet.now) (F.Fleet.offsets fleet.now) pair) side (position_of w) };

    ghost lower: { (r : Self) → HoldsU (sets r) };

    ghost upper: { (r : Self) → HoldsV (sets r) };

    ghost share: { (r : Self) → AllShare (sets r) };

    ghost only: { (r : Self) → OnlyMeeting (sets r) };
}
