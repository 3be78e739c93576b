// A deck, and the end of its runs.
ghost use Rattle.std.specs.Prelude.{◌≡◌};
ghost use Rattle.deck.specs.Decks.{new_deck, fits, Finishes, Recalls};

use crate::slip::{Returned, Slip};
use fault::cause::Cause;

// A deck has a name, is free or out on a run, and counts its runs.
#[derive(Drop)]
pub struct Deck {
    pub(crate) name: u16,
    pub(crate) runs: u16,
    pub(crate) is_out: bool,
}

impl Deck {
    // A free deck that has made no run.
    pub fn new(name: u16) -> Deck
        ensures { result ≡ new_deck name }
    {
        Deck {
            name,
            runs: 0,
            is_out: false,
        }
    }

    // Ends the run at its last instant.
    pub fn finish(&mut self, slip: Slip) -> Result<(), Returned>
        ensures { Finishes slip self.old self.new result }
    {
        if self.is_of_run(&slip) && slip.numbers.instant < slip.numbers.last {
            return Err(slip.returned(Cause::WrongInstant));
        }
        self.recall(slip)
    }

    // Ends the run at any instant.
    pub fn recall(&mut self, slip: Slip) -> Result<(), Returned>
        ensures { Recalls slip self.old self.new result }
    {
        if !self.is_of_run(&slip) {
            return Err(slip.returned(Cause::SlipNotOfRun));
        }
        slip.spend();
        self.is_out = false;
        Ok(())
    }

    // Whether the deck is out on the run of the slip.
    fn is_of_run(&self, slip: &Slip) -> bool
        ensures { result ≡ fits slip.now.numbers self.now }
    {
        self.is_out && slip.numbers.name == self.name && slip.numbers.run == self.runs
    }
}
