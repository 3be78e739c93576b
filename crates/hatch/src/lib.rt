// What is done at the hatch with a job file: the plan, and what may be asked besides.
#![tactic(auto)]

ghost use Rattle.std.specs.Prelude.{◌≡◌, ◌≢◌, true, codes, IfOk, OnOk, MatchResult};
ghost use Rattle.job.specs.declared.job.Job.{Job};
ghost use Rattle.job.specs.Facts.{facts};
ghost use Rattle.job.specs.Format.{encode};
ghost use Rattle.hatch.specs.Planning.{JobSearch, Planned};

use crate::drive::drive;
use anyhow::{anyhow, bail};
use fault::cause::Fault;
use fault::refusal::{LINES_BUFFER, write_refusal};
use job::job::Job;
use search::Search;
use search::call::{Call, RunError};
use search::verdict::Verdict;
use split::shared_cell::SharedCell;
use standard::{JobFleet, fleet_of};
use std::io::Write;

mod alone;
mod drive;
mod printed;
mod show;

// What is asked besides the plan: to print the job and what each sled could do alone, first; to drive the plan on a deck, then.
#[derive(Clone, Copy)]
pub struct Asked {
    pub check: bool,
    pub drive: bool,
}

impl Asked {
    // Nothing but the plan.
    pub const PLAN: Asked = Asked {
        check: false,
        drive: false,
    };

    // What is asked with one argument more. Other words ask for nothing.
    pub fn with(self, word: &str) -> Asked
        ensures check { word.now ≡ codes "--check" → result ≡ record { check = true; drive = self.drive } }
        ensures drive { word.now ≡ codes "--drive" → result ≡ record { check = self.check; drive = true } }
        ensures other { word.now ≢ codes "--check" → word.now ≢ codes "--drive" → result ≡ self }
    {
        match word {
            "--check" => Asked {
                check: true,
                ..self
            },
            "--drive" => Asked {
                drive: true,
                ..self
            },
            _ => self,
        }
    }
}

// Prints what is asked of a job file on standard output. A refusal's line is printed as well, and is an error.
pub fn answer(rt: &HostRuntime, asked: Asked, file: &[u8]) -> anyhow::Result<()>
    ensures { OnOk result ((job : Job) × (file.now ≡ encode (facts job)) × ((search : JobSearch) × Planned job search)) }
{
    tell(rt, asked, &accepted(rt, file)?)
}

// The job of a file. If it is refused, the refusal's line is printed, and it is an error: a file is refused before anything is asked.
pub fn accepted(rt: &HostRuntime, file: &[u8]) -> anyhow::Result<Job>
    ensures { MatchResult result (λ job. file.now ≡ encode (facts job)) (λ _. (job : Job) → file.now ≢ encode (facts job)) }
{
    let mut job = Job::new();
    job.read(file).map_err(|fault| refused(rt, fault))?;
    Ok(job)
}

// Prints what is asked of a job. Without an error there is a search that has run the job to its end; of what is printed nothing is promised.
pub fn tell(rt: &HostRuntime, asked: Asked, job: &Job) -> anyhow::Result<()>
    ensures { OnOk result ((search : JobSearch) × Planned job.now search) }
{
    if asked.check {
        check(rt, job)?;
    }
    let search = plan(rt, job)?;
    if asked.drive && search.verdict() == Verdict::Solved {
        drive(rt, &search, job.sleds().len())?;
    }
    Ok(())
}

// The joint plan: the job is opened, searched to its end, and told.
fn plan(rt: &HostRuntime, job: &Job) -> anyhow::Result<Search<JobFleet, SharedCell>>
    ensures { IfOk result (Planned job.now) }
{
    let mut search = Search::new(rt.alloc(), fleet_of(job), SharedCell)?;
    let whole = [Call::Advance(u32::from(job.limit()) + 1)];
    match search.run(rt.alloc(), job, &whole) {
        Ok(_) => {}
        Err(RunError::Refused(fault)) => return Err(refused(rt, fault)),
        Err(RunError::NoMemory) => bail!("there is no memory for the answers"),
    }
    let mut lines = [0; LINES_BUFFER];
    let length = search
        .print(&mut lines)
        .map_err(|fault| refused(rt, fault))?;
    put(rt, &lines[..length.min(LINES_BUFFER)])?;
    Ok(search)
}

// The job, where its sleds stand, and the route of each as if the others were not there.
fn check(rt: &HostRuntime, job: &Job) -> anyhow::Result<()> {
    show::show_job(rt, job)?;
    let fleet = fleet_of(job);
    alone::show_standing(rt, job, &fleet)?;
    alone::show_routes(rt, job, &fleet)
}

// Puts the refusal's line on standard output, and gives an error for the status.
fn refused(rt: &HostRuntime, fault: Fault) -> anyhow::Error {
    let mut lines = [0; LINES_BUFFER];
    if let Ok(length) = write_refusal(fault, &mut lines)
        && let Err(error) = put(rt, &lines[..length.min(LINES_BUFFER)])
    {
        return error;
    }
    anyhow!("refused")
}

// The lines on standard output.
fn put(rt: &HostRuntime, lines: &[u8]) -> anyhow::Result<()> {
    rt.stdout().write_all(lines)?;
    Ok(())
}
