// Reads a job file from standard input and prints the cheapest collision-free plan, or that there is none, or that the table of
// nodes is full, or the refusal. With the argument --check it first prints the job and what each sled could do alone; with --drive it then
// drives the plan on a deck.
#![tactic(auto)]

use hatch::{Asked, accepted, tell};
use std::env;
use std::io::Read;

fn main(rt: HostRuntime) -> anyhow::Result<()> {
    let mut file = Vec::new(rt.alloc());
    rt.stdin().read_to_end(&mut file)?;
    let job = accepted(&rt, file.as_slice())?;
    let asked = env::args(&rt)?.fold(Asked::PLAN, |asked, word| asked.with(word.as_str()));
    tell(&rt, asked, &job)
}
