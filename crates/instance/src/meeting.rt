// Two sleds and where they are, by their numbers.
ghost use Rattle.instance.specs.Meetings.{PairTold};

use engine::problem::At;
use grid::place::Place;
use split::pair::Pair;

// Both sleds at their places; none where a number is too high for a sled of any fleet.
pub(crate) fn pair_at(a: At, b: At) -> Option<Pair>
    ensures { PairTold a.sled b.sled a.place b.place result }
{
    Some(Pair {
        i: u8::try_from(a.sled).ok()?,
        j: u8::try_from(b.sled).ok()?,
        u: Place::from(a.place),
        v: Place::from(b.place),
    })
}
