// Answers each example three times: for the plan alone, and with each of the two arguments.
#![tactic(auto)]

use hatch::{Asked, answer};
use std::fs;

// Their files are NAME.job.
const NAMES: [&str; 12] = [
    "smallest",
    "one-sled",
    "pillars",
    "drawn-outline",
    "skirt",
    "passing-bay",
    "crossing",
    "six-sleds",
    "changing-ends",
    "start-on-a-pillar",
    "refused-cut",
    "refused-skirt",
];

fn main(rt: HostRuntime) -> anyhow::Result<()> {
    for name in NAMES {
        let path = format!(in rt.alloc(); "{name}.job")?;
        let file = fs::read(&rt, path.as_str())?;
        println!(rt; "{name}")?;
        show(&rt, Asked::PLAN, file.as_slice())?;
        println!(rt; "{name} --check")?;
        show(&rt, Asked::PLAN.with("--check"), file.as_slice())?;
        println!(rt; "{name} --drive")?;
        show(&rt, Asked::PLAN.with("--drive"), file.as_slice())?;
    }
    Ok(())
}

// The answer, and whether it is an error.
fn show(rt: &HostRuntime, asked: Asked, file: &[u8]) -> anyhow::Result<()> {
    if answer(rt, asked, file).is_err() {
        println!(rt; "error")?;
    }
    Ok(())
}
