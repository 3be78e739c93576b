// What a search tells of its tree.
ghost use Rattle.search.specs.Telling.{TellsBound, TellsVerdict, TellsPlace, TellsMakespan};

use crate::Search;
use crate::verdict::Verdict;
use fault::cause::{Cause, Fault};
use fleet::Fleet;
use grid::place::Place;
use split::SplitRule;

impl<F: Fleet, R: SplitRule> Search<F, R> {
    // The least sum of an open node, or that there is none.
    pub fn bound(&self) -> Result<Option<u16>, Fault>
        ensures { TellsBound R.SplitRule.sets self.now result }
    {
        self.opened.as_ref().ok_or(Cause::WrongState)?;
        Ok(self.engine.bound())
    }

    pub fn verdict(&self) -> Verdict
        ensures { TellsVerdict R.SplitRule.sets self.now result }
    {
        match self.opened {
            Some(_) => Verdict::from(self.engine.verdict()),
            None => Verdict::Idle,
        }
    }

    // Where a sled is at an instant in the solved node.
    pub fn place(&self, sled: usize, instant: usize) -> Result<Place, Fault>
        ensures { TellsPlace R.SplitRule.sets self.now sled instant result }
    {
        let opened = self.opened.as_ref().ok_or(Cause::NotSolved)?;
        let problem = opened.problem(&self.rule);
        let number = self.engine.place(&problem, sled, instant)?;
        Ok(Place::from(number))
    }

    // The greatest cost of a route in the solved node: the instant from which on every sled stays at its goal.
    pub fn makespan(&self) -> Result<u8, Fault>
        ensures { TellsMakespan R.SplitRule.sets self.now result }
    {
        let opened = self.opened.as_ref().ok_or(Cause::NotSolved)?;
        let problem = opened.problem(&self.rule);
        let Some(last) = self.engine.makespan(&problem) else {
            return Err(Cause::NotSolved.into());
        };
        Ok(last)
    }
}
