// Where the sleds of a job begin and end.
ghost use Rattle.std.specs.Prelude.{◌≡◌};
ghost use Rattle.job.specs.Jobs.{values_of};
ghost use Rattle.instance.specs.Ends.{EndsAre, EndsOf, both_stand, FirstWithout};

use fleet::MAX_SLEDS;
use grid::place::BOARD_PLACES;
use job::job::Job;
use job::sled::Sled;
use std::array;

// Where one sled begins and ends, by place numbers.
#[derive(Clone, Copy)]
pub(crate) struct Ends {
    pub(crate) start: u8,
    pub(crate) goal: u8,
}

impl From<Sled> for Ends {
    ghost from_gives = { λ sled. EndsAre (values_of sled) };

    fn from(sled: Sled) -> Ends {
        Ends {
            start: u8::from(sled.start),
            goal: u8::from(sled.goal),
        }
    }
}

// Start and goal of each sled of the job.
pub(crate) fn ends_of(job: &Job) -> [Option<Ends>; MAX_SLEDS]
    ensures { EndsOf job.now result }
{
    array::from_fn(|number| job.sled(number).map(Ends::from))
}

// The first sled that cannot stand at its start or at its goal.
pub(crate) fn first_stuck(
    standing: &[[bool; BOARD_PLACES]; MAX_SLEDS],
    ends: &[Option<Ends>; MAX_SLEDS],
) -> Option<usize>
    ensures { FirstWithout (both_stand standing.now ends.now) 6 result }
{
    standing.iter().zip(ends).position(|(places, ends)| {
        ends.is_some_and(|ends| !places[ends.start as usize] || !places[ends.goal as usize])
    })
}
