// Tries searches against a planner that tries every combination of moves: the smallest job, and then random small jobs under each
// splitting rule.
#![tactic(auto)]

use crate::counts::Counts;
use crate::draw::{SMALL, Size, WIDE, draw_case};
use crate::trial::Trial;
use split::one_sided::OneSided;
use split::shared_cell::SharedCell;
use split::single::Single;
use trial_tools::dice::Dice;

mod bounds;
mod case;
mod cells;
mod counts;
mod difference;
mod draw;
mod encode;
mod exhaustive;
mod going;
mod smallest;
mod told;
mod traveller;
mod trial;
mod wanted;

const SEED: u64 = 1;

fn main(rt: HostRuntime) -> anyhow::Result<()> {
    match smallest::try_smallest(rt.alloc()) {
        Ok(lines) => print!(rt; "{lines}")?,
        Err(difference) => println!(rt; "smallest job: {difference:?}")?,
    }
    let mut dice = Dice::new(SEED);
    println!(rt; "5000 small jobs")?;
    try_jobs(&rt, &mut dice, SMALL, 5000)?;
    println!(rt; "1000 wide jobs")?;
    try_jobs(&rt, &mut dice, WIDE, 1000)
}

// So many random jobs, each under the three rules.
fn try_jobs(rt: &HostRuntime, dice: &mut Dice, size: Size, jobs: u32) -> anyhow::Result<()> {
    let mut single = Counts::of("single");
    let mut one_sided = Counts::of("one-sided");
    let mut shared_cell = Counts::of("shared cell");
    for number in 0..jobs {
        let case = draw_case(rt.alloc(), dice, size)?;
        match Trial::new(rt.alloc(), &case) {
            Ok(trial) => {
                single.add(rt, number, trial.run(rt.alloc(), Single))?;
                one_sided.add(rt, number, trial.run(rt.alloc(), OneSided))?;
                shared_cell.add(rt, number, trial.run(rt.alloc(), SharedCell))?;
            }
            Err(difference) => println!(rt; "job {number}: {difference:?}")?,
        }
    }
    single.show(rt)?;
    one_sided.show(rt)?;
    shared_cell.show(rt)?;
    Ok(())
}
