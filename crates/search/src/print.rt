// The lines that tell how a search ended.
ghost use Rattle.search.specs.Printing.{Prints};
ghost use Rattle.search.specs.Workings.{TellsOutcome, TellsSum, TellsRoute, TellsRoutes};

use crate::Search;
use crate::verdict::Verdict;
use engine::Engine;
use engine::node::Route;
use engine::problem::Problem;
use fault::cause::{Cause, Fault};
use fleet::Fleet;
use lines::outcome::Outcome;
use lines::report::{MAX_INSTANTS, MAX_SLEDS, Report, write_report};
use split::SplitRule;
use std::array;

impl<F: Fleet, R: SplitRule> Search<F, R> {
    // Writes the lines from the front of the buffer, and answers their length.
    pub fn print(&self, out: &mut [u8]) -> Result<usize, Fault>
        ensures { Prints out.old out.new result R.SplitRule.sets self.now }
    {
        let opened = self.opened.as_ref().ok_or(Cause::WrongState)?;
        let outcome = self.outcome().ok_or(Cause::WrongState)?;
        let problem = opened.problem(&self.rule);
        let routes = plan(&self.engine, &problem);
        let sleds = problem.sleds();
        let report = Report {
            outcome,
            turns: opened.turns as usize,
            routes: &routes[..sleds],
            last: problem.horizon().steps,
        };
        write_report(&report, out)
    }

    // How the search ended, if it did.
    fn outcome(&self) -> Option<Outcome>
        ensures { TellsOutcome R.SplitRule.sets self.now result }
    {
        match self.verdict() {
            Verdict::Idle | Verdict::Working => None,
            Verdict::Solved => Some(Outcome::Solved {
                sum: self.least_sum(),
            }),
            Verdict::NoPlan => Some(Outcome::NoPlan),
            Verdict::Full => Some(Outcome::Full {
                bound: self.least_sum(),
            }),
        }
    }

    // The least sum of an open node. 0 is told where there is none, which is never so in a search that is solved or full: were the option
    // passed on, that such a search is told of would rest on this fact of the tree.
    fn least_sum(&self) -> usize
        ensures { TellsSum R.SplitRule.sets self.now result }
    {
        self.engine.bound().map_or(0, usize::from)
    }
}

// A route for each sled that there can be: the rows have one size, as in a node, so that no memory is asked for here. Only those of the
// problem's sleds count, and of each only the instants up to the horizon.
fn plan<P: Problem>(engine: &Engine, problem: &P) -> [Route; MAX_SLEDS]
    ensures { TellsRoutes (P.Problem.model problem.now) engine.now 6 result }
{
    array::from_fn(
        |sled|
            ensures { TellsRoute (P.Problem.model problem.entry.now) engine.entry.now sled result }
        { route(engine, problem, sled) },
    )
}

// The route of a sled in the solved node, in front of instants that do not count.
fn route<P: Problem>(engine: &Engine, problem: &P, sled: usize) -> Route
    ensures { TellsRoute (P.Problem.model problem.now) engine.now sled result }
{
    engine.route(problem, sled).unwrap_or([0; MAX_INSTANTS])
}
