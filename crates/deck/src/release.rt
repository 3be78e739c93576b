// The start of a run.
ghost use Rattle.deck.specs.Releasing.{Releases};

use crate::Deck;
use crate::slip::{Slip, SlipNumbers};
use fault::cause::{Cause, Fault};
use fleet::Fleet;
use search::Search;
use split::SplitRule;

impl Deck {
    // A free deck goes out with the plan of a solved search.
    pub fn release<F: Fleet, R: SplitRule>(&mut self, search: &Search<F, R>) -> Result<Slip, Fault>
        ensures { Releases R.SplitRule.sets search.now self.old self.new result }
    {
        let last = search.makespan()?;
        if self.is_out || self.runs == u16::MAX {
            return Err(Cause::DeckNotFree.into());
        }
        self.runs += 1;
        self.is_out = true;
        Ok(Slip {
            numbers: SlipNumbers {
                name: self.name,
                run: self.runs,
                instant: 0,
                last,
            },
        })
    }
}
