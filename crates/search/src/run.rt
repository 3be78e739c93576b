// A search from its opening on: a list of calls, one after the other.
ghost use Rattle.std.specs.Prelude.{◌≡◌, ◌≤◌, [], length, vec_len, vec_capacity};
ghost use Rattle.engine.specs.Calls.{call_of};
ghost use Rattle.search.specs.Runs.{Runs};
ghost use Rattle.search.specs.Workings.{Answers, AllAnswers};

use crate::Search;
use crate::call::{Answer, Call, RunError};
use fleet::Fleet;
use job::job::Job;
use split::SplitRule;
use std::alloc::Global;

impl<F: Fleet, R: SplitRule> Search<F, R> {
    // Opens a job and makes the calls, in their order, and answers what each of them answered. Memory for the answers is taken before
    // anything is opened.
    pub fn run(&mut self, heap: Global, job: &Job, calls: &[Call]) -> Result<Vec<Answer>, RunError>
        ensures { Runs F.Fleet.size F.Fleet.offsets R.SplitRule.sets job.now calls.now self.old self.new result }
    {
        let answers = Vec::with_capacity(heap, calls.len())?;
        self.open(job)?;
        Ok(self.make_calls(calls, answers))
    }

    // Makes the calls and writes down the answers, for which there is room.
    fn make_calls(&mut self, calls: &[Call], mut answers: Vec<Answer>) -> Vec<Answer>
        requires empty { (answers.items ≡ []) × (vec_len answers ≡ 0) }
        requires room { length calls.now ≤ vec_capacity answers }
        ensures { AllAnswers R.SplitRule.sets self.old self.new calls.now result.items }
    {
        for call in calls {
            let answer = self.answer(*call);
            answers.push_reserved(answer);
        }
        answers
    }

    // Makes a call through the method of its name.
    fn answer(&mut self, call: Call) -> Answer
        ensures { Answers R.SplitRule.sets self.old self.new (call_of call) result }
    {
        match call {
            Call::Advance(count) => Answer::Advanced(self.advance(count)),
            Call::Bound => Answer::Bounded(self.bound()),
            Call::Verdict => Answer::Judged(self.verdict()),
            Call::Place { sled, instant } => Answer::Placed(self.place(sled, instant)),
        }
    }
}
