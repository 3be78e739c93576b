// Whether two cells overlap during a step: it is enough to look at its start, its middle and its end.
ghost use Rattle.std.specs.Prelude.{◌≡◌};
ghost use Rattle.geometry.specs.Overlaps.{Far, twice, small, overlap_at, overlap};

use crate::relative::Step;

// How far apart two cells are, across and down. Apart from a step and an offset, whose bounds are others (at most two cells, and none):
// the sums below need these.
#[derive(Clone, Copy)]
pub(crate) struct Apart {
    pub(crate) x: i8,
    pub(crate) y: i8,
    ghost across: { Far x },
    ghost down: { Far y },
}

// By name and not by number, as the definition of an overlap has them.
#[derive(Clone, Copy)]
enum Moment {
    Start,
    Middle,
    End,
}

impl Apart {
    // Twice how far apart they are at a moment of a relative step, across and down.
    fn doubled(self, moment: Moment, step: Step) -> (i8, i8)
        ensures across { result.0 ≡ twice moment self.x step.dx }
        ensures down { result.1 ≡ twice moment self.y step.dy }
    {
        let (x, y) = (2 * self.x, 2 * self.y);
        match moment {
            Moment::Start => (x, y),
            Moment::Middle => (x + step.dx, y + step.dy),
            Moment::End => (x + 2 * step.dx, y + 2 * step.dy),
        }
    }

    // Whether they overlap at a moment of a relative step.
    fn overlaps_at(self, moment: Moment, step: Step) -> bool
        ensures { result ≡ overlap_at moment self.x self.y step.dx step.dy }
    {
        let (x, y) = self.doubled(moment, step);
        is_small(x) && is_small(y)
    }

    // Whether they overlap at the start, the middle or the end.
    pub(crate) fn overlaps(self, step: Step) -> bool
        ensures { result ≡ overlap self.x self.y step.dx step.dy }
    {
        [Moment::Start, Moment::Middle, Moment::End]
            .iter()
            .any(|moment| self.overlaps_at(*moment, step))
    }
}

fn is_small(z: i8) -> bool
    ensures { result ≡ small z }
{
    -2 < z && z < 2
}
