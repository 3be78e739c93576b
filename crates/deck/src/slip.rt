// The slip of a run: a token that has to be spent.
ghost use Rattle.std.specs.Prelude.{◌≡◌};
ghost use Rattle.deck.specs.Slips.{GoesOnward, HandedBack, IsSpent};

use fault::cause::{Cause, Fault};

// The run of a slip that is spent: a slip is plain numbers, and runs are numbered from 1, so that no deck is out on this one.
const NO_RUN: u16 = 0;

// What a slip says, to be kept and compared: the deck's name, the number of the run, the instant that it is at, and its last.
#[derive(Clone, Copy, PartialEq, Debug)]
pub struct SlipNumbers {
    pub name: u16,
    pub run: u16,
    pub instant: u8,
    pub last: u8,
}

// One run of a deck. Its field is the crate's own, so only `onward`, `finish` and `recall` take it.
pub struct Slip {
    pub(crate) numbers: SlipNumbers,
}

// Only a slip that is off its run may be let go.
impl Drop for Slip {
    fn drop(self)
        requires { IsSpent self }
    {
        let Slip { numbers: _ } = self;
    }
}

// A refusal that hands the slip back.
#[derive(Drop)]
pub struct Returned {
    pub fault: Fault,
    pub slip: Slip,
}

impl Slip {
    pub fn numbers(&self) -> SlipNumbers
        ensures { result ≡ self.now.numbers }
    {
        self.numbers
    }

    // The slip one instant later.
    pub fn onward(mut self) -> Result<Slip, Returned>
        ensures { GoesOnward self result }
    {
        if self.numbers.instant >= self.numbers.last {
            return Err(self.returned(Cause::WrongInstant));
        }
        self.numbers.instant += 1;
        Ok(self)
    }

    // Hands the slip back for this cause.
    pub(crate) fn returned(self, cause: Cause) -> Returned
        ensures { HandedBack cause self result }
    {
        Returned {
            fault: cause.into(),
            slip: self,
        }
    }

    // Takes the slip off its run.
    pub(crate) fn spend(mut self) {
        self.numbers.run = NO_RUN;
    }
}
