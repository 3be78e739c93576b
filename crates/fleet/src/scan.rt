// A scan of offsets by any test: all those near an offset, or all with parts from -7 to 7.
ghost use Rattle.std.specs.Prelude.{◌≡◌, ◌*◌, ◌≤◌, Bool, ℤ, pos, negsuc, ◌+ℤ◌, ◌-ℤ◌, ◌≤ℤ◌};
ghost use Rattle.fleet.specs.Offsets.{Offsets, Near};
ghost use Rattle.fleet.specs.Scans.{within, some_within, some_beside, some_offset, first_near, FirstNear, FirstOffset, TellsWithin, TellsBeside, TellsRow, Tells};

use crate::offset::Offset;

// The largest part of an offset, either way.
pub(crate) const REACH: u8 = 7;

// Whether some offset passes.
pub fn any_offset<T: Fn(Offset) -> bool>(test: T) -> bool
    requires { T.IsAlwaysCallable test }
    ensures { (set : Offsets) → Tells (T.post test) set → result ≡ some_offset set }
{
    any_beside(test, REACH, Offset { dx: 0, dy: 0 })
}

// Whether some offset within m, across and down, of this one passes. Here and in the two functions below m is a margin, at most 3, or the
// reach, 7; a type for both would be taken apart in the range at once.
pub(crate) fn any_beside<T: Fn(Offset) -> bool>(test: T, m: u8, offset: Offset) -> bool
    requires callable { T.IsAlwaysCallable test }
    requires narrow { m ≤ 7 }
    requires near { Near offset.dx × Near offset.dy }
    ensures { (set : Offsets) → TellsBeside m offset.dx offset.dy (T.post test) set → result ≡ some_beside m offset.dx offset.dy set }
{
    any_within(|dy| row_has(&test, dy, m, offset.dx), m, offset.dy)
}

// Whether some offset of a row passes, with a column from x - m to x + m.
fn row_has<T: Fn(Offset) -> bool>(test: &T, dy: i8, m: u8, x: i8) -> bool
    requires callable { T.IsAlwaysCallable test.now }
    requires narrow { m ≤ 7 }
    requires near { Near x }
    ensures { TellsRow m x (T.post test.now) dy result }
{
    any_within(|dx| test(Offset { dx, dy }), m, x)
}

// Whether some number from z - m to z + m passes. The range leaves out its end: with it, it takes more than twice as long.
fn any_within<T: Fn(i8) -> bool>(test: T, m: u8, z: i8) -> bool
    requires callable { T.IsAlwaysCallable test }
    requires narrow { m ≤ 7 }
    requires near { Near z }
    ensures { (set : ℤ → Bool) → TellsWithin m z (T.post test) set → result ≡ some_within m z set }
{
    let far = m as i8;
    (z - far..z + far + 1).any(|a| test(a))
}

// The first offset that passes, by row and then column.
pub fn first_offset<T: Fn(Offset) -> bool>(test: T) -> Option<Offset>
    requires { T.IsAlwaysCallable test }
    ensures { (set : Offsets) → Tells (T.post test) set → FirstOffset set result }
{
    let dy = first_near(|dy| row_has(&test, dy, REACH, 0))?;
    let dx = first_near(|dx| test(Offset { dx, dy }))?;
    Some(Offset { dx, dy })
}

// The first number from -7 to 7 that passes.
fn first_near<T: Fn(i8) -> bool>(test: T) -> Option<i8>
    requires { T.IsAlwaysCallable test }
    ensures { (set : ℤ → Bool) → TellsWithin 7 (pos 0) (T.post test) set → FirstNear set result }
{
    let far = REACH as i8;
    (-far..far + 1).find(|&z| test(z))
}

// Whether z lies from -n to n.
pub fn is_within(n: u8, z: i8) -> bool
    ensures { result ≡ within n z }
{
    z.unsigned_abs() <= n
}
