// The least cost: the first instant at which the goal can be reached and then kept.
ghost use Rattle.std.specs.Prelude.{◌≡◌, ◌-◌, ◌≤◌, MatchOption};
ghost use Rattle.walk.specs.Workings.{waits, Earliest, Never};

use crate::errand::Errand;
use crate::layers::advance;
use crate::rows::begin;
use crate::weight::{Step, Steps};

// Whether the goal may be kept at each step from an instant to the horizon.
fn can_wait<S: Steps<bool>>(steps: &S, goal: u8, from: u8, horizon: u8) -> bool
    requires { from ≤ horizon }
    ensures { result ≡ waits (S.step steps.now) goal from (horizon - from) }
{
    (from..horizon).all(|instant| {
        steps.weight(Step {
            instant,
            from: goal,
            to: goal,
        })
    })
}

// The first instant at which the goal can be reached and then kept to the horizon.
pub(crate) fn earliest<S: Steps<bool>>(steps: &S, errand: Errand) -> Option<u8>
    ensures { MatchOption result (Never (S.step steps.now) errand.horizon.steps errand.start errand.goal) (Earliest (S.step steps.now) errand.horizon.steps errand.start errand.goal) }
{
    let Errand {
        start,
        goal,
        horizon,
    } = errand;
    let mut row = begin(start);
    // By hand: a try_fold is no plainer, as it would break off at the answer as at an error, with a match after it to turn the two around.
    for instant in 0..horizon.steps {
        if row[goal as usize] && can_wait(steps, goal, instant, horizon.steps) {
            return Some(instant);
        }
        row = advance(steps, instant, &row);
    }
    row[goal as usize].then_some(horizon.steps)
}
