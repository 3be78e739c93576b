// Up to six sleds, in their order.
ghost use Rattle.std.specs.Prelude.{◌≡◌, [], ◌∷◌, map};
ghost use Rattle.job.specs.Jobs.{sleds_told, smallest_sled, ends_drawn, values_of};

use crate::shape::Shape;
use crate::sled::{MAX_SLEDS, Sled};
use few::Few;
use grid::place::Place;

pub(crate) type Sleds = Few<Sled, MAX_SLEDS>;

const ORIGIN: Place = Place { column: 0, row: 0 };

// One cell that stays at the origin.
const SMALLEST: Sled = Sled {
    shape: Shape::Rectangle {
        width: 1,
        height: 1,
    },
    skirt: 0,
    start: ORIGIN,
    goal: ORIGIN,
};

pub(crate) fn no_sleds() -> Sleds
    ensures { sleds_told result ≡ [] }
{
    Few::new(SMALLEST)
}

// The smallest sled alone.
pub(crate) fn smallest_alone() -> Sleds
    ensures { sleds_told result ≡ smallest_sled ∷ [] }
{
    let mut sleds = no_sleds();
    let Ok(()) = sleds.push(SMALLEST) else {
        unreachable()
    };
    sleds
}

// Whether the last of them is drawn.
pub(crate) fn ends_drawn(sleds: &[Sled]) -> bool
    ensures { result ≡ ends_drawn (map values_of sleds.now) }
{
    sleds.last().is_some_and(|sled| sled.shape.is_drawn())
}
