// How a search is made, opened and cleared.
ghost use Rattle.std.specs.Prelude.{IfOk};
ghost use Rattle.search.specs.States.{New};
ghost use Rattle.search.specs.Opening.{Opens};

use crate::Search;
use crate::state::Opened;
use engine::Engine;
use fault::cause::{Cause, Fault};
use fleet::Fleet;
use instance::instance::Instance;
use job::job::Job;
use split::SplitRule;
use std::alloc::{AllocError, Global};

impl<F: Fleet + Drop, R: SplitRule + Drop> Search<F, R> {
    // An idle search. It takes all memory for the largest tree, and no later call takes any for one.
    pub fn new(heap: Global, fleet: F, rule: R) -> Result<Search<F, R>, AllocError>
        ensures { IfOk result (New fleet rule) }
    {
        let engine = Engine::new(heap)?;
        Ok(Search {
            opened: None,
            fleet,
            rule,
            engine,
        })
    }
}

impl<F: Fleet, R: SplitRule> Search<F, R> {
    // Takes a job into an idle search.
    pub fn open(&mut self, job: &Job) -> Result<(), Fault>
        ensures { Opens F.Fleet.size F.Fleet.offsets R.SplitRule.sets job.now self.old self.new result }
    {
        if self.opened.is_some() {
            return Err(Cause::SearchNotIdle.into());
        }
        let opened = Opened {
            instance: Instance::of(job, &self.fleet)?,
            turns: 0,
        };
        let problem = opened.problem(&self.rule);
        self.engine.open(&problem, job.limit());
        self.opened = Some(opened);
        Ok(())
    }

    // Makes the search idle again.
    pub fn clear(&mut self)
        ensures { New self.old.fleet self.old.rule self.new }
    {
        self.opened = None;
    }
}
