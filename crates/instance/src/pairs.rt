// The differences between the offsets of each two sleds of a fleet.
ghost use Rattle.tables.specs.TabledFleets.{tabled_sleds};
ghost use Rattle.instance.specs.Worked.{TableTold, RowTold, PairsTold};

use fleet::{Fleet, MAX_SLEDS};
use std::array;
use tables::differences::Differences;
use tables::tabled::Tabled;

// At [i][j] the differences of sled i and sled j: only those of a lower and a higher sled are asked for.
pub(crate) fn pairs_of(fleet: &Tabled) -> [[Option<Differences>; MAX_SLEDS]; MAX_SLEDS]
    ensures { PairsTold (tabled_sleds fleet.now) fleet.now.count result }
{
    array::from_fn(
        |i|
            ensures { RowTold (tabled_sleds fleet.entry.now) fleet.entry.now.count i result }
        { row_of(fleet, i) },
    )
}

// The differences of one sled and each higher one.
fn row_of(fleet: &Tabled, i: usize) -> [Option<Differences>; MAX_SLEDS]
    ensures { RowTold (tabled_sleds fleet.now) fleet.now.count i result }
{
    array::from_fn(|j| pair_of(fleet, i, j))
}

// The differences of a lower and a higher sled of the fleet.
fn pair_of(fleet: &Tabled, i: usize, j: usize) -> Option<Differences>
    ensures { TableTold (tabled_sleds fleet.now) fleet.now.count i j result }
{
    (i < j && j < fleet.count() as usize).then(|| Differences::of(fleet, i as u8, j as u8))
}
