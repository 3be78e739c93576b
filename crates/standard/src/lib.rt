// The fleet that a job names: a skirt over a convoy of its rectangles and its drawings.
#![tactic(auto)]

ghost use Rattle.std.specs.Prelude.{◌≡◌, ℕ, length, ℤ};
ghost use Rattle.job.specs.Facts.{facts};
ghost use Rattle.standard.specs.JobFleets.{fleet_size, fleet_sleds, job_sleds};

use crate::shapes::shapes_of;
use fleet::Fleet;
use fleet::convoy::Convoy;
use fleet::outlines::Outlines;
use fleet::rectangles::Rectangles;
use fleet::skirt::Skirt;
use job::job::Job;

mod shapes;

pub type JobFleet = Skirt<Convoy<Rectangles, Outlines>>;

// Each sled of the job, in its order, with its shape and its skirt.
pub fn fleet_of(job: &Job) -> JobFleet
    ensures size { fleet_size result ≡ length (facts job.now).sleds }
    ensures offsets { (s : ℕ) (x y : ℤ) → fleet_sleds result s x y ≡ job_sleds (facts job.now).sleds s x y }
{
    let mut fleet = Skirt::new(shapes_of(job));
    for (number, sled) in job.sleds().iter().enumerate() {
        let Ok(()) = fleet.set_skirt(number as u8, sled.skirt) else {
            unreachable()
        };
    }
    fleet
}

#[cfg(test)]
mod tests {
    use super::*;
    use fleet::Fleet;
    use fleet::offset::Offset;
    use std::test::Fail;

    // One step, one node, one free cell; a rectangle 2 by 1 with a skirt of 1, and a drawing of two cells.
    const FILE: &[u8] = b"H\x00\x01\x01\
        N\x00\x01\x01\
        F\x00\x03\x01\x01.\
        R\x00\x07\x02\x01\x01\x00\x00\x00\x00\
        D\x00\x0D\x80\x01\x00\x00\x00\x00\x00\x00\x00\x00\x00\x00\x00\
        E\x00\x00";

    // Offsets with their sled, and whether it has them.
    const ASKED: [(u8, i8, i8, bool); 8] = [
        (0, -1, -1, true),
        (0, 2, 1, true),
        (0, 3, 0, false),
        (0, 0, 2, false),
        (1, 0, 0, true),
        (1, 7, 1, true),
        (1, 1, 0, false),
        (2, 0, 0, false),
    ];

    // What the fleet answers is what it means.
    fn answer(fleet: &JobFleet, sled: u8, offset: Offset) -> bool
        ensures { result ≡ fleet_sleds fleet.now sled offset.dx offset.dy }
    {
        fleet.has(sled, offset)
    }

    #[test]
    fn a_rectangle_with_a_skirt_and_a_drawing(rt: HostRuntime) -> Result<(), Fail> {
        let mut job = Job::new();
        job.read(FILE)?;
        let fleet = fleet_of(&job);
        assert_eq!(rt; fleet.count(), 2);
        for (sled, dx, dy, has) in ASKED {
            assert_eq!(rt; answer(&fleet, sled, Offset { dx, dy }), has);
        }
        Ok(())
    }
}
