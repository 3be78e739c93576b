// The turns of a search.
ghost use Rattle.search.specs.Advancing.{Advances};

use crate::Search;
use fault::cause::{Cause, Fault};
use fleet::Fleet;
use split::SplitRule;

impl<F: Fleet, R: SplitRule> Search<F, R> {
    // Makes turns until there are as many as asked or the search ends, and answers how many it made.
    pub fn advance(&mut self, count: u32) -> Result<u32, Fault>
        ensures { Advances R.SplitRule.sets self.old self.new count result }
    {
        let opened = self.opened.as_mut().ok_or(Cause::WrongState)?;
        let problem = opened.problem(&self.rule);
        let made = self.engine.advance(&problem, count)?;
        opened.turns = opened.turns.saturating_add(made);
        Ok(made)
    }
}
