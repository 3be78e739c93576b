// How a search stands.
ghost use Rattle.std.specs.Prelude.{◌≡◌};
ghost use Rattle.engine.specs.Calls as engine;
ghost use Rattle.search.specs.Words.{verdict_of};

use engine::call::Status;

// Nothing is opened; it goes on; it has found the plan; there is no plan to find; there is no room for more nodes. As an option of the
// engine's four words, an idle search would be told as `None`, which is the word for a job without a plan.
#[derive(Clone, Copy, PartialEq, Debug)]
pub enum Verdict {
    Idle,
    Working,
    Solved,
    NoPlan,
    Full,
}

// The verdict on what is opened, as the engine has it.
impl From<Status> for Verdict {
    ghost from_gives = { λ status verdict. verdict ≡ verdict_of (engine.status_of status) };

    fn from(status: Status) -> Verdict {
        match status {
            Status::Working => Verdict::Working,
            Status::Solved => Verdict::Solved,
            Status::Unsolvable => Verdict::NoPlan,
            Status::Full => Verdict::Full,
        }
    }
}
