// Verdicts and refusals as they are told.
ghost use Rattle.std.specs.Prelude.{◌≡◌};
ghost use Rattle.tree.specs.Calls as calls;
ghost use Rattle.engine.specs.Table.{verdict_of};
ghost use Rattle.engine.specs.Calls.{status_of, refusal_of, fault_of};

use super::call::{Refusal, Status};
use super::node::Verdict;
use fault::cause::{Cause, Fault};

impl From<Verdict> for Status {
    ghost from_gives = { λ verdict status. status_of status ≡ calls.status_of (verdict_of verdict) };

    fn from(verdict: Verdict) -> Status {
        match verdict {
            Verdict::Working => Status::Working,
            Verdict::Solved(_) => Status::Solved,
            Verdict::Unsolvable => Status::Unsolvable,
            Verdict::Full => Status::Full,
        }
    }
}

// A refusal is of no place.
impl From<Refusal> for Fault {
    ghost from_gives = { λ refusal fault. fault ≡ fault_of (refusal_of refusal) };

    fn from(refusal: Refusal) -> Fault {
        let cause = match refusal {
            Refusal::Ended => Cause::WrongState,
            Refusal::NoTurns => Cause::NoTurns,
            Refusal::NotSolved => Cause::NotSolved,
            Refusal::TooHigh => Cause::NumberTooHigh,
        };
        cause.into()
    }
}
