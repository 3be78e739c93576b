// Horizons by their number of steps.
ghost use Rattle.grid.specs.Horizons.{HorizonOf};

use crate::horizon::Horizon;

impl Horizon {
    // The horizon of this many steps, if it is from 1 to 63.
    pub fn new(steps: u8) -> Option<Horizon>
        ensures { HorizonOf steps result }
    {
        match steps {
            1..=63 => Some(Horizon { steps }),
            _ => None,
        }
    }
}
