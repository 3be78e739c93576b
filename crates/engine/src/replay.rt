// A search from its beginning: a list of calls, one after the other.
ghost use Rattle.std.specs.Prelude.{◌≡◌, min, map, length, take, drop};
ghost use Rattle.tree.specs.Law.{Lawful};
ghost use Rattle.engine.specs.Model.{search_of};
ghost use Rattle.engine.specs.Calls.{call_of, events_of};

use super::call::{Answer, Call};
use super::node::MAX_NODES;
use super::problem::Problem;
use super::state::Engine;

impl Engine {
    // Opens a problem, makes the calls for whose answers there is room, and writes down each answer: whatever the calls, all answers
    // together keep the law of searches. Tells how many calls it made.
    pub fn replay<P: Problem>(
        &mut self,
        problem: &P,
        limit: u16,
        calls: &[Call],
        answers: &mut [Answer],
    ) -> usize
        ensures count { result ≡ min (length calls.now) (length answers.old) }
        ensures lawful { Lawful (search_of (P.Problem.model problem.now)) (min limit MAX_NODES) (map call_of (take result calls.now)) (events_of (take result calls.now) (take result answers.new)) }
        ensures rest { drop result answers.new ≡ drop result answers.old }
    {
        self.open(problem, limit);
        let count = calls.len().min(answers.len());
        // The answers by number: of what a loop writes through a `zip` with `iter_mut` only the length is known after it.
        for (number, call) in calls[..count].iter().enumerate() {
            answers[number] = self.answer(problem, *call);
        }
        count
    }
}
