// What a field holds, by its tag, and whether that lies within its limits.
ghost use Rattle.std.specs.Prelude.{◌≡◌, ◌&&◌, nat_lt};
ghost use Rattle.job.specs.Values.{limits_of};

use crate::sled_value::SledValue;
use fault::cause::Cause;
use grid::position::Position;

// The sides of a floor.
#[derive(Clone, Copy)]
pub(crate) struct Sides {
    pub columns: u8,
    pub rows: u8,
}

impl Sides {
    // Whether a place lies on the floor. A floor answers the same of places of the board; these may lie beyond it.
    pub(crate) fn has(self, place: Position) -> bool
        ensures { result ≡ (nat_lt place.column self.columns && nat_lt place.row self.rows) }
    {
        place.column < self.columns && place.row < self.rows
    }
}

#[derive(Clone, Copy)]
pub(crate) enum Value {
    Limit(u8),
    Floor(Sides),
    // a sled, and the sides of the floor that it moves on
    Placed(SledValue, Sides),
}

impl Value {
    // Refuses a value outside its limits.
    pub(crate) fn check(self) -> Result<(), Cause>
        ensures { result ≡ limits_of self }
    {
        match self {
            Value::Limit(1..=255) => Ok(()),
            Value::Floor(
                Sides {
                    columns: 1..=16,
                    rows: 1..=16,
                },
            ) => Ok(()),
            Value::Placed(sled, sides) if !sled.is_sound(sides) => Err(Cause::ValueOutsideLimits),
            Value::Placed(sled, _) if sled.shape.outgrows(sled.skirt) => Err(Cause::OffsetTooFar),
            Value::Placed(..) => Ok(()),
            Value::Limit(_) | Value::Floor(_) => Err(Cause::ValueOutsideLimits),
        }
    }
}
