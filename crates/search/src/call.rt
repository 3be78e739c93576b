// Calls that can be made one after the other, and their answers.
ghost use Rattle.std.specs.Prelude.{◌≡◌};
ghost use Rattle.search.specs.declared.call.RunError.TheVariants.{NoMemory, Refused};

use crate::verdict::Verdict;
use fault::cause::Fault;
use grid::place::Place;
use std::alloc::AllocError;

// Make so many turns; tell the bound; tell the verdict; tell the place of a sled at an instant.
pub use engine::call::Call;

// What each call answers. The engine answers each in another kind: one enum for both would have four parameters.
#[derive(Clone, Copy)]
pub enum Answer {
    Advanced(Result<u32, Fault>),
    Bounded(Result<Option<u16>, Fault>),
    Judged(Verdict),
    Placed(Result<Place, Fault>),
}

// Why no calls were made: there is no memory for their answers, or the job was refused.
#[derive(Clone, Copy)]
pub enum RunError {
    NoMemory,
    Refused(Fault),
}

impl From<AllocError> for RunError {
    ghost from_gives = { λ _ error. error ≡ NoMemory };

    fn from(_error: AllocError) -> RunError {
        RunError::NoMemory
    }
}

impl From<Fault> for RunError {
    ghost from_gives = { λ fault error. error ≡ Refused fault };

    fn from(fault: Fault) -> RunError {
        RunError::Refused(fault)
    }
}
