// What there is to plan, in tables.
ghost use Rattle.tables.specs.TabledFleets.{tabled_sleds};
ghost use Rattle.instance.specs.Worked.{AllStand, StandsTold, PairsTold};

use crate::ends::Ends;
use fleet::MAX_SLEDS;
use grid::floor::Floor;
use grid::place::BOARD_PLACES;
use tables::differences::Differences;
use tables::tabled::Tabled;
use walk::horizon::Horizon;

mod answers;
mod calls;

// What is worked out of sleds stands in three lists, and not in one of structs, which is no plainer: each list is made whole by a function
// of its own, and each ghost field tells of one list, and would have to pick its part out of every struct.
#[derive(Clone, Copy)]
pub struct Instance {
    horizon: Horizon,
    // where each sled of the job begins and ends
    ends: [Option<Ends>; MAX_SLEDS],
    floor: Floor,
    fleet: Tabled,
    // for each sled, and each place by its number, whether the sled may stand there
    standing: [[bool; BOARD_PLACES]; MAX_SLEDS],
    // for each sled and each higher one, the differences between their offsets
    pairs: [[Option<Differences>; MAX_SLEDS]; MAX_SLEDS],
    ghost ends_stand: { AllStand (tabled_sleds fleet) floor fleet.count ends },
    ghost stands: { StandsTold (tabled_sleds fleet) floor standing },
    ghost paired: { ∥ PairsTold (tabled_sleds fleet) fleet.count pairs ∥₁ },
}
