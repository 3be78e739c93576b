// One job under one splitting rule: the search is run turn by turn, and all that it tells is compared with the exhaustive planner.
use crate::bounds::Bounds;
use crate::case::{Case, Spot};
use crate::difference::Difference;
use crate::encode::file_of;
use crate::exhaustive::{Sleds, least_sum, sleds_of};
use crate::told::{Told, sum_of_plan};
use crate::wanted::lines_of;
use fault::cause::Cause;
use fault::refusal::LINES_BUFFER;
use grid::place::Place;
use job::job::Job;
use search::Search;
use search::verdict::Verdict;
use split::SplitRule;
use standard::{JobFleet, fleet_of};
use std::alloc::{AllocError, Global};
use trial_tools::check::check;

// A job that was read, and what is known of it without the search.
#[derive(Drop)]
pub struct Trial {
    job: Job,
    sleds: Sleds,
    least: Option<u16>,
}

// How a search ended, and after how many turns; or it was not opened, since a sled cannot stand where it begins or ends.
#[derive(Clone, Copy)]
pub enum Ending {
    Solved { turns: u32 },
    NoPlan,
    Full,
    CannotStand,
}

impl Trial {
    // The case goes through the reader as the bytes of a file.
    pub fn new(alloc: Global, case: &Case) -> Result<Trial, Difference> {
        let file = file_of(alloc, case)?;
        let mut job = Job::new();
        check(job.read(file.as_slice()).is_ok(), Difference::FileRefused)?;
        let sleds = sleds_of(alloc, case)?;
        let least = least_sum(alloc, &sleds, case.horizon)?;
        Ok(Trial { job, sleds, least })
    }

    // Runs a search under a rule to its end.
    pub fn run<R: SplitRule + Drop>(&self, alloc: Global, rule: R) -> Result<Ending, Difference> {
        let mut search = Search::new(alloc, fleet_of(&self.job), rule)?;
        let opened = search.open(&self.job);
        if let Some(number) = self.sleds.iter().position(|sled| !sled.can_begin_and_end()) {
            let refused = Err(Cause::CannotStand.at(number));
            check(opened == refused, Difference::OpenedWithoutStanding)?;
            return Ok(Ending::CannotStand);
        }
        check(opened.is_ok(), Difference::OpeningRefused)?;
        let mut bounds = Bounds::new(self.least);
        let turns = self.make_turns(&mut search, &mut bounds)?;
        match search.verdict() {
            Verdict::Solved => self.judge_plan(alloc, &search, turns),
            Verdict::NoPlan => self.judge_none(bounds),
            Verdict::Full => self.judge_full(bounds, turns),
            Verdict::Idle | Verdict::Working => Err(Difference::StillWorking),
        }
    }

    // One turn after the other, until the search has ended: how many there were.
    fn make_turns<R: SplitRule>(
        &self,
        search: &mut Search<JobFleet, R>,
        bounds: &mut Bounds,
    ) -> Result<u32, Difference> {
        bounds.hear(search.bound()?)?;
        let mut turns: u32 = 0;
        for _ in 0..=self.job.limit() {
            if search.verdict() != Verdict::Working {
                break;
            }
            check(search.advance(1) == Ok(1), Difference::TurnsMiscounted)?;
            bounds.hear(search.bound()?)?;
            turns = turns.saturating_add(1);
        }
        check(
            search.verdict() != Verdict::Working,
            Difference::StillWorking,
        )?;
        let ended = Err(Cause::WrongState.into());
        check(search.advance(1) == ended, Difference::TurnsAfterTheEnd)?;
        Ok(turns)
    }

    // Solved: the bound, the routes and the lines tell a collision-free plan of least sum.
    fn judge_plan<R: SplitRule>(
        &self,
        alloc: Global,
        search: &Search<JobFleet, R>,
        turns: u32,
    ) -> Result<Ending, Difference> {
        let least = self.least.ok_or(Difference::SolvedWithoutPlan)?;
        check(search.bound() == Ok(Some(least)), Difference::SumNotLeast)?;
        let plan = self.plan_of(alloc, search)?;
        check(
            sum_of_plan(plan.as_slice())? == least,
            Difference::RoutesCostOtherwise,
        )?;
        let lines = lines_of(alloc, least, turns, plan.as_slice())?;
        check(
            has_lines(search, lines.as_bytes())?,
            Difference::LinesOtherwise,
        )?;
        Ok(Ending::Solved { turns })
    }

    // The routes of the sleds that there are.
    fn plan_of<R: SplitRule>(
        &self,
        alloc: Global,
        search: &Search<JobFleet, R>,
    ) -> Result<Vec<Told<'_>>, Difference> {
        let mut plan = Vec::new(alloc);
        for (number, sled) in self.sleds.iter().take(self.job.sled_count()).enumerate() {
            let route = route_of(alloc, search, number, self.job.horizon())?;
            let told = Told::new(alloc, sled, route)?;
            plan.push(told).map_err(AllocError::from)?;
        }
        Ok(plan)
    }

    fn judge_none(&self, bounds: Bounds) -> Result<Ending, Difference> {
        check(self.least.is_none(), Difference::NoneDespitePlan)?;
        check(bounds.last().is_none(), Difference::NoneWithBound)?;
        Ok(Ending::NoPlan)
    }

    // Full: each turn but the last made two nodes at most, and two more are more than the limit.
    fn judge_full(&self, bounds: Bounds, turns: u32) -> Result<Ending, Difference> {
        check(bounds.last().is_some(), Difference::FullWithoutBound)?;
        let most = turns.saturating_mul(2).saturating_add(1);
        check(u32::from(self.job.limit()) < most, Difference::FullTooEarly)?;
        Ok(Ending::Full)
    }
}

// The route that a search tells of a sled, place by place.
fn route_of<R: SplitRule>(
    alloc: Global,
    search: &Search<JobFleet, R>,
    sled: usize,
    horizon: u8,
) -> Result<Vec<Spot>, Difference> {
    let mut route = Vec::new(alloc);
    for instant in 0..=usize::from(horizon) {
        let place = search.place(sled, instant)?;
        route.push(Spot::from(place)).map_err(AllocError::from)?;
    }
    Ok(route)
}

impl From<Place> for Spot {
    fn from(place: Place) -> Spot {
        Spot {
            column: place.column as i8,
            row: place.row as i8,
        }
    }
}

// Whether the search prints just these lines.
fn has_lines<R: SplitRule>(search: &Search<JobFleet, R>, lines: &[u8]) -> Result<bool, Difference> {
    let mut out = [0; LINES_BUFFER];
    let length = search.print(&mut out)?;
    Ok(out.get(..length) == Some(lines))
}
