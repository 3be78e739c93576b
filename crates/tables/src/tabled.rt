// A fleet as one table of offsets for each sled.
ghost use Rattle.std.specs.Prelude.{◌≡◌, ◌≤◌, true, slice_index_or};
ghost use Rattle.fleet.specs.Scans.{some_offset};
ghost use Rattle.tables.specs.Tables.{set_of, each_below};
ghost use Rattle.tables.specs.NoTables.{no_table};

use crate::table::Table;
use fleet::MAX_SLEDS;

mod calls;

// A table for each sled that a fleet may have; none of the fleet's is without an offset.
// The count stands beside them: `array::from_fn` makes all six from their numbers, where a `Few` would be filled by a loop that says
// of the tables so far what `from_fn` says of all.
#[derive(Clone, Copy)]
pub struct Tabled {
    count: u8,
    tables: [Table<7, 15>; MAX_SLEDS],
    ghost few: { count ≤ 6 },
    ghost some: { each_below (λ s. some_offset (set_of 7 (slice_index_or tables s no_table).rows)) count ≡ true },
}
