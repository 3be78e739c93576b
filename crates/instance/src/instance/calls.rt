// Making an instance.
ghost use Rattle.std.specs.Prelude.{MatchResult};
ghost use Rattle.instance.specs.Instances.{Admitted, TurnedAway};

use crate::ends::{ends_of, first_stuck};
use crate::instance::Instance;
use crate::pairs::pairs_of;
use crate::standings::standings_of;
use fault::cause::{Cause, Fault};
use fleet::Fleet;
use job::job::Job;
use tables::tabled::Tabled;

impl Instance {
    // What a job asks of a fleet, which has to have as many sleds, each of which may stand at its start and at its goal.
    pub fn of<F: Fleet>(job: &Job, fleet: &F) -> Result<Instance, Fault>
        ensures { MatchResult result (Admitted job.now (F.Fleet.size fleet.now) (F.Fleet.offsets fleet.now)) (TurnedAway job.now (F.Fleet.size fleet.now) (F.Fleet.offsets fleet.now)) }
    {
        if fleet.count() as usize != job.sled_count() {
            return Err(Cause::FleetNotOfJob.into());
        }
        let fleet = Tabled::of(fleet);
        let floor = job.floor();
        let standing = standings_of(&fleet, &floor);
        let ends = ends_of(job);
        if let Some(sled) = first_stuck(&standing, &ends) {
            return Err(Cause::CannotStand.at(sled));
        }
        Ok(Instance {
            horizon: job.span(),
            ends,
            floor,
            fleet,
            standing,
            pairs: pairs_of(&fleet),
        })
    }
}
