// Where each sled of a fleet may stand.
ghost use Rattle.std.specs.Prelude.{◌<◌};
ghost use Rattle.standing.specs.Tables.{StandsAt};
ghost use Rattle.tables.specs.TabledFleets.{tabled_sleds};
ghost use Rattle.instance.specs.Worked.{StandsTold};

use fleet::MAX_SLEDS;
use grid::floor::Floor;
use grid::place::BOARD_PLACES;
use standing::standing_places;
use std::array;
use tables::tabled::Tabled;

pub(crate) fn standings_of(fleet: &Tabled, floor: &Floor) -> [[bool; BOARD_PLACES]; MAX_SLEDS]
    ensures { StandsTold (tabled_sleds fleet.now) floor.now result }
{
    array::from_fn(
        |sled|
            requires { sled < 6 }
            ensures { StandsAt (tabled_sleds fleet.entry.now sled) floor.entry.now result }
        { standing_places(fleet, sled as u8, floor) },
    )
}
