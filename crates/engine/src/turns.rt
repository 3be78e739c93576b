// The search, turn by turn.
ghost use Rattle.std.specs.Prelude.{◌≡◌, min, IfOk};
ghost use Rattle.tree.specs.Tree as tree;
ghost use Rattle.tree.specs.Calls.{made_by, after_turns};
ghost use Rattle.engine.specs.Model.{search_of};
ghost use Rattle.engine.specs.Engine.{IsAt, Unopened, Goes};
ghost use Rattle.engine.specs.Table.{verdict_of};

use super::conflict::first_conflict;
use super::grow::root;
use super::node::{MAX_NODES, Verdict};
use super::problem::Problem;
use super::state::Engine;
use super::table::NodeTable;
use std::alloc::{AllocError, Global};

impl Engine {
    // Takes all memory, for the largest limit. Nothing is opened yet.
    pub fn new(heap: Global) -> Result<Engine, AllocError>
        ensures { IfOk result Unopened }
    {
        Ok(Engine {
            table: NodeTable::new(heap)?,
            verdict: Verdict::Working,
            limit: 0,
        })
    }

    // Begins the search of a problem with its root. A limit above the largest is taken as the largest.
    pub fn open<P: Problem>(&mut self, problem: &P, limit: u16)
        ensures root { IsAt (P.Problem.model problem.now) self.new (tree.turns (search_of (P.Problem.model problem.now)) (min limit MAX_NODES) 0) }
        ensures limit { self.new.limit ≡ min limit MAX_NODES }
    {
        let first = root(problem);
        self.table.clear();
        self.table.fill(first);
        self.verdict = Verdict::Working;
        self.limit = limit.min(MAX_NODES);
    }

    // One turn. Without an open node the verdict becomes unsolvable, without a conflict solved, and without room for two more nodes
    // full; otherwise the node gives way to its children. After the end a turn changes nothing.
    fn turn<P: Problem>(&mut self, problem: &P)
        ensures { Goes (P.Problem.model problem.now) self.old self.new (tree.turn (search_of (P.Problem.model problem.now)) self.old.limit) }
    {
        match (self.verdict, self.table.cheapest()) {
            (Verdict::Working, Some(number)) => {
                match first_conflict(problem, &self.table.node(number).routes) {
                    None => self.verdict = Verdict::Solved(number),
                    Some(_) if self.table.len() + 2 > self.limit as usize => {
                        self.verdict = Verdict::Full;
                    }
                    Some(conflict) => self.table.expand(problem, number, conflict),
                }
            }
            (Verdict::Working, None) => self.verdict = Verdict::Unsolvable,
            _ => {}
        }
    }

    pub(crate) fn is_working(&self) -> bool
        ensures { result ≡ tree.is_working (verdict_of self.now.verdict) }
    {
        matches!(self.verdict, Verdict::Working)
    }

    // Makes turns until there are as many as asked or the search ends, and tells how many it made.
    pub(crate) fn make_turns<P: Problem>(&mut self, problem: &P, count: u32) -> u32
        ensures made { (t : tree.Tree) → IsAt (P.Problem.model problem.now) self.old t → result ≡ made_by (search_of (P.Problem.model problem.now)) self.old.limit count t }
        ensures goes { Goes (P.Problem.model problem.now) self.old self.new (after_turns (search_of (P.Problem.model problem.now)) self.old.limit count) }
    {
        // By hand: a `find` whose closure makes the turns is no plainer, and what it leaves of the engine stays open.
        for made in 0..count {
            if !self.is_working() {
                return made;
            }
            self.turn(problem);
        }
        count
    }
}
