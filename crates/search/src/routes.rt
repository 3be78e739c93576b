// How many routes of least cost a sled has by itself.
ghost use Rattle.search.specs.Counting.{Counts};

use crate::Search;
use engine::lone::LoneSled;
use engine::problem::Problem;
use fault::cause::{Cause, Fault};
use fleet::Fleet;
use split::SplitRule;
use walk::count::Count;
use walk::tally::count_routes;

impl<F: Fleet, R: SplitRule> Search<F, R> {
    // The number of routes of least cost of a sled, at most 65,535. Both rows are the caller's, and are promised to hold 0 in their first
    // 256 entries; the count itself takes no rows.
    pub fn routes(&self, sled: usize, row: &mut [Count], spare: &mut [Count]) -> Result<u16, Fault>
        ensures { Counts sled row.old spare.old row.new spare.new R.SplitRule.sets self.now result }
    {
        let opened = self.opened.as_ref().ok_or(Cause::WrongState)?;
        let problem = opened.problem(&self.rule);
        if sled >= problem.sleds() {
            return Err(Cause::NumberTooHigh.into());
        }
        let lone = LoneSled {
            problem: &problem,
            sled,
        };
        count_routes(&lone, lone.errand(), row, spare)
    }
}
