// A set of offsets as a table of yes and no.
ghost use Rattle.std.specs.Prelude.{◌≡◌, ◌*◌, ◌<◌, ◌≤◌, pos, ◌-ℤ◌};
ghost use Rattle.fleet.specs.Offsets.{Offsets};
ghost use Rattle.fleet.specs.Scans.{TellsBeside};
ghost use Rattle.tables.specs.Tables.{IsSquare, set_of, Says, RowSays};

use fleet::offset::Offset;
use std::array;

// Row by row, for parts from -REACH to REACH.
#[derive(Clone, Copy)]
pub(crate) struct Table<const REACH: u8, const SIDE: usize> {
    rows: [[bool; SIDE]; SIDE],
    ghost square: { IsSquare REACH SIDE },
}

impl<const REACH: u8, const SIDE: usize> Table<REACH, SIDE> {
    // The table of the offsets that pass.
    pub(crate) fn of<T: Fn(Offset) -> bool>(test: T) -> Table<REACH, SIDE>
        requires square { IsSquare REACH SIDE }
        requires callable { T.IsAlwaysCallable test }
        ensures { (set : Offsets) → TellsBeside REACH (pos 0) (pos 0) (T.post test) set → Says REACH set result.rows }
    {
        Table {
            rows: array::from_fn(
                |row| -> [bool; SIDE]
                    requires { IsSquare REACH SIDE × (row < SIDE) × T.IsAlwaysCallable test }
                    ensures { RowSays REACH (T.post test) (pos row -ℤ pos REACH) result }
                { Self::row(&test, row as i8 - REACH as i8) },
            ),
        }
    }

    // The row of a part down.
    fn row<T: Fn(Offset) -> bool>(test: &T, dy: i8) -> [bool; SIDE]
        requires square { IsSquare REACH SIDE }
        requires callable { T.IsAlwaysCallable test.now }
        ensures { RowSays REACH (T.post test.now) dy result }
    {
        array::from_fn(
            |column| -> bool
                requires { (REACH ≤ 14) × (column ≤ 2 * REACH) × T.IsAlwaysCallable test.now }
                ensures { T.post test.entry.now (record { dx = pos column -ℤ pos REACH; dy = dy }) result }
            {
                test(Offset {
                    dx: column as i8 - REACH as i8,
                    dy,
                })
            },
        )
    }

    // Whether an offset is in the set.
    pub(crate) fn has(&self, offset: Offset) -> bool
        ensures { result ≡ set_of REACH self.now.rows offset.dx offset.dy }
    {
        if !offset.is_within(REACH) {
            return false;
        }
        let (column, row) = (offset.dx + REACH as i8, offset.dy + REACH as i8);
        self.rows[row as usize][column as usize]
    }
}
