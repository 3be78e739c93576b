// Rectangular sleds.
ghost use Rattle.std.specs.Prelude.{◌≡◌, ◌≤◌};

use crate::offset::Offset;
use crate::shapes::{Shape, Shapes};
use fault::cause::{Cause, Fault};

const MAX_SIDE: u8 = 8;

// Sides from 1 to 8.
#[derive(Clone, Copy)]
pub struct Rectangle {
    width: u8,
    height: u8,
    ghost wide: { 1 ≤ width },
    ghost narrow: { width ≤ 8 },
    ghost tall: { 1 ≤ height },
    ghost short: { height ≤ 8 },
}

pub type Rectangles = Shapes<Rectangle>;

impl TryFrom<(u8, u8)> for Rectangle {
    type Error = Fault;

    ghost use Rattle.fleet.specs.RectangleFleets.{IsRectangle};

    ghost try_from_gives = { IsRectangle };

    fn try_from((width, height): (u8, u8)) -> Result<Rectangle, Fault> {
        let sides = 1..=MAX_SIDE;
        if !sides.contains(&width) || !sides.contains(&height) {
            return Err(Cause::ValueOutsideLimits.into());
        }
        Ok(Rectangle { width, height })
    }
}

impl Shape for Rectangle {
    ghost use Rattle.std.specs.Prelude.{pos};
    ghost use Rattle.std.proofs.Common.{arith};
    ghost use Rattle.std.proofs.lemmas.Int.{ints};
    ghost use Rattle.std.proofs.lemmas.Bool.Decides.{nat_tests};
    ghost use Rattle.fleet.specs.RectangleFleets.{rectangle};

    ghost covers = { λ r. rectangle r.width r.height };

    ghost near = { λ r x y e. ((Prim.grind (arith, nat_tests, ints, e), Prim.grind (arith, nat_tests, ints, e, r.narrow)), (Prim.grind (arith, nat_tests, ints, e), Prim.grind (arith, nat_tests, ints, e, r.short))) };

    ghost some = { λ r. (pos 0, pos 0, Prim.grind (arith, nat_tests, r.wide, r.tall)) };

    const FILLER: Rectangle = Rectangle {
        width: 1,
        height: 1,
    };

    fn has(&self, offset: Offset) -> bool {
        (0..self.width as i8).contains(&offset.dx) && (0..self.height as i8).contains(&offset.dy)
    }
}

impl Shapes<Rectangle> {
    ghost use Rattle.fleet.specs.RectangleFleets.{Added};

    // One sled more, of sides from 1 to 8; at most six. One `add` for every kind would take a shape, and leave to its callers what is
    // refused here.
    pub fn add(&mut self, width: u8, height: u8) -> Result<(), Fault>
        ensures { Added width height self.old self.new result }
    {
        self.join(Rectangle::try_from((width, height))?)
    }
}
