// The differences between the offsets of two sleds, as a table.
use crate::table::Table;

mod calls;

// Parts from -14 to 14.
#[derive(Clone, Copy)]
pub struct Differences {
    table: Table<14, 29>,
}
