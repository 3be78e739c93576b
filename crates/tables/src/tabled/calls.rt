// Making a fleet's tables, and their answers.
ghost use Rattle.std.specs.Prelude.{◌≡◌};
ghost use Rattle.tables.specs.TabledFleets.{tabled_sleds};
ghost use Rattle.tables.specs.TabledTerms.{tabled_terms};
ghost use Rattle.tables.specs.Tables.{Says};

use crate::table::Table;
use crate::tabled::Tabled;
use fleet::Fleet;
use fleet::offset::Offset;
use std::array;

fn table_of<F: Fleet>(fleet: &F, sled: u8) -> Table<7, 15>
    ensures { Says 7 (F.Fleet.offsets fleet.now sled) result.rows }
{
    Table::of(|offset| fleet.has(sled, offset))
}

impl Tabled {
    // The tables of a fleet: the same count, and the same offsets of each sled.
    pub fn of<F: Fleet>(fleet: &F) -> Tabled
        ensures count { result.count ≡ F.Fleet.size fleet.now }
        ensures sleds { tabled_sleds result ≡ F.Fleet.offsets fleet.now }
    {
        Tabled {
            count: fleet.count(),
            tables: array::from_fn(|sled| table_of(fleet, sled as u8)),
        }
    }
}

impl Fleet for Tabled {
    ghost size = { λ t. t.count };

    ghost offsets = { tabled_sleds };

    ghost few = { λ t. (tabled_terms t).few };

    ghost only = { λ t. (tabled_terms t).only };

    ghost near = { λ t. (tabled_terms t).near };

    ghost some = { λ t. (tabled_terms t).some };

    fn count(&self) -> u8 {
        self.count
    }

    fn has(&self, sled: u8, offset: Offset) -> bool {
        if sled >= self.count {
            return false;
        }
        self.tables[sled as usize].has(offset)
    }
}
