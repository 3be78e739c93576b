// The values of a sled's field, before and after they are found to be within their limits.
// Apart from a sled: one type over what a place is would be named with it in every clause on the format.
ghost use Rattle.std.specs.Prelude.{◌≡◌};
ghost use Rattle.job.specs.Jobs.{SledOf};
ghost use Rattle.job.specs.Shapes.{sled_ok};

use crate::shape::Shape;
use crate::sled::Sled;
use crate::value::Sides;
use grid::place::Place;
use grid::position::Position;

#[derive(Clone, Copy)]
pub struct SledValue {
    pub shape: Shape,
    pub skirt: u8,
    pub start: Position,
    pub goal: Position,
}

impl SledValue {
    // The sled of these values, if both places lie on the board.
    pub(crate) fn sled(self) -> Option<Sled>
        ensures { SledOf self result }
    {
        let start = Place::new(self.start.column, self.start.row)?;
        let goal = Place::new(self.goal.column, self.goal.row)?;
        Some(Sled {
            shape: self.shape,
            skirt: self.skirt,
            start,
            goal,
        })
    }

    // Whether the shape, the skirt and both places are within their limits.
    pub(crate) fn is_sound(self, sides: Sides) -> bool
        ensures { result ≡ sled_ok sides.columns sides.rows self }
    {
        self.shape.is_sound() && self.skirt <= 3 && sides.has(self.start) && sides.has(self.goal)
    }
}
