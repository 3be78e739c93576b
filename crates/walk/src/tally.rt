// How many routes of least cost there are.
ghost use Rattle.std.specs.Prelude.{◌≡◌, min, length, MatchResult};
ghost use Rattle.walk.specs.Promises.{Refused, Counted};
ghost use Rattle.walk.specs.Routes.{cheapest_routes};

use crate::allowed::Allowed;
use crate::arrival::earliest;
use crate::count::Count;
use crate::errand::Errand;
use crate::layers::walk_row;
use crate::rows::Layer;
use crate::weight::{Steps, Weight};
use fault::cause::{Cause, Fault};
use grid::place::BOARD_PLACES;

// The number of routes of least cost, at most 65,535.
pub fn tally<S: Steps<bool>>(steps: &S, errand: Errand) -> u16
    ensures { result ≡ min 65535 (length (cheapest_routes (S.step steps.now) errand.horizon.steps errand.start errand.goal)) }
{
    let Some(cost) = earliest(steps, errand) else {
        return 0;
    };
    let row: Layer<Count> = walk_row(&Allowed { steps }, errand.start, cost);
    row[errand.goal as usize].value
}

// The number of routes of least cost, at most 65,535. The first 256 entries of two rows, which are the caller's, then hold 0;
// shorter rows are refused.
pub fn count_routes<S: Steps<bool>>(
    steps: &S,
    errand: Errand,
    row: &mut [Count],
    spare: &mut [Count],
) -> Result<u16, Fault>
    ensures { MatchResult result (Counted (S.step steps.now) errand.horizon.steps errand.start errand.goal row.old spare.old row.new spare.new) (Refused row.old spare.old row.new spare.new) }
{
    if row.len() < BOARD_PLACES || spare.len() < BOARD_PLACES {
        return Err(Cause::BufferTooShort.into());
    }
    let count = tally(steps, errand);
    row[..BOARD_PLACES].fill(Count::nought());
    spare[..BOARD_PLACES].fill(Count::nought());
    Ok(count)
}
