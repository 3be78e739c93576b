// The calls of a search.
ghost use Rattle.std.specs.Prelude.{◌≡◌, suc, ◌<◌, take, OnErr, vec_len, slice_index_or};
ghost use Rattle.std.specs.Option.{option_map, IfSome};
ghost use Rattle.tree.specs.Tree as tree;
ghost use Rattle.tree.specs.Calls as calls;
ghost use Rattle.engine.specs.Model.{Model};
ghost use Rattle.engine.specs.Table.{plan_of, empty};
ghost use Rattle.engine.specs.Engine.{IsAt, Answers, solution, route_told, makespan_told};
ghost use Rattle.engine.specs.Calls.{status_of, call_of, answer_of, told_of};

use super::call::{Answer, Call, Refusal, Status};
use super::cost::greatest_cost;
use super::node::{Route, Verdict};
use super::problem::Problem;
use super::state::Engine;

impl Engine {
    // The least sum of an open node, or that there is none.
    pub fn bound(&self) -> Option<u16>
        ensures { (m : Model) (t : tree.Tree) → IsAt m self.now t → result ≡ tree.bound m.setting t }
    {
        let number = self.table.cheapest()?;
        Some(self.table.node(number).sum)
    }

    pub fn verdict(&self) -> Status
        ensures { (m : Model) (t : tree.Tree) → IsAt m self.now t → status_of result ≡ calls.status_of t.verdict }
    {
        Status::from(self.verdict)
    }

    // The number of the node that solves the search, if there is one.
    fn solved(&self) -> Option<u16>
        ensures inside { IfSome result (λ number. number < vec_len self.now.table.nodes) }
        ensures node { (m : Model) (t : tree.Tree) → IsAt m self.now t → option_map (λ number. plan_of m.setting (slice_index_or self.now.table.nodes.items number empty).routes) result ≡ solution t.nodes t.verdict }
    {
        let Verdict::Solved(number) = self.verdict else {
            return None;
        };
        Some(number)
    }

    // Where a sled is at an instant in the solved node.
    pub fn place<P: Problem>(&self, problem: &P, sled: usize, instant: usize) -> Result<u8, Refusal>
        ensures { (t : tree.Tree) → IsAt (P.Problem.model problem.now) self.now t → told_of calls.stands result ≡ calls.placed (P.Problem.model problem.now).setting t.nodes t.verdict sled instant }
    {
        let number = self.solved().ok_or(Refusal::NotSolved)?;
        let node = self.table.node(number);
        if sled < problem.sleds() && instant <= problem.horizon().steps as usize {
            Ok(node.routes[sled][instant])
        } else {
            Err(Refusal::TooHigh)
        }
    }

    // A sled's route in the solved node: its places at the instants from 0 to the horizon, in front of others that do not count.
    pub fn route<P: Problem>(&self, problem: &P, sled: usize) -> Option<Route>
        ensures { (t : tree.Tree) → IsAt (P.Problem.model problem.now) self.now t → option_map (take (suc (P.Problem.model problem.now).setting.horizon)) result ≡ route_told (P.Problem.model problem.now).setting t.nodes t.verdict sled }
    {
        let number = self.solved()?;
        let node = self.table.node(number);
        (sled < problem.sleds())
            .then(|| &node.routes[sled])
            .copied()
    }

    // The greatest cost of a route in the solved node; none unless it is solved.
    pub fn makespan<P: Problem>(&self, problem: &P) -> Option<u8>
        ensures { (t : tree.Tree) → IsAt (P.Problem.model problem.now) self.now t → result ≡ makespan_told (P.Problem.model problem.now).setting t.nodes t.verdict }
    {
        let number = self.solved()?;
        Some(greatest_cost(problem, &self.table.node(number).routes))
    }

    // Makes turns until there are as many as asked or the search ends, and answers how many it made.
    pub fn advance<P: Problem>(&mut self, problem: &P, count: u32) -> Result<u32, Refusal>
        ensures answers { Answers (P.Problem.model problem.now) self.old self.new (calls.advance count) (told_of calls.made result) }
        ensures kept { OnErr result (self.new ≡ self.old) }
    {
        if !self.is_working() {
            return Err(Refusal::Ended);
        }
        if count == 0 {
            return Err(Refusal::NoTurns);
        }
        Ok(self.make_turns(problem, count))
    }

    // Makes a call and tells its answer.
    pub(crate) fn answer<P: Problem>(&mut self, problem: &P, call: Call) -> Answer
        ensures { Answers (P.Problem.model problem.now) self.old self.new (call_of call) (answer_of result) }
    {
        match call {
            Call::Advance(count) => Answer::Advanced(self.advance(problem, count)),
            Call::Bound => Answer::Bounded(self.bound()),
            Call::Verdict => Answer::Judged(self.verdict()),
            Call::Place { sled, instant } => Answer::Placed(self.place(problem, sled, instant)),
        }
    }
}
