// A job in lines that a person reads: horizon and limit, the floor, and each sled.
use crate::printed::{Row, Shown};
use grid::floor::Floor;
use job::job::Job;
use job::sled::Sled;

pub fn show_job(rt: &HostRuntime, job: &Job) -> anyhow::Result<()> {
    println!(rt; "horizon {}", job.horizon())?;
    println!(rt; "limit {}", job.limit())?;
    show_floor(rt, &job.floor())?;
    for (number, sled) in job.sleds().iter().enumerate() {
        show_sled(rt, number, sled)?;
    }
    Ok(())
}

fn show_floor(rt: &HostRuntime, floor: &Floor) -> anyhow::Result<()> {
    println!(rt; "floor {} by {}", floor.columns(), floor.rows())?;
    for row in floor.cells().chunks(usize::from(floor.columns())) {
        println!(rt; "{}", Row(row))?;
    }
    Ok(())
}

// In one write, so that a line is printed whole or not at all.
fn show_sled(rt: &HostRuntime, number: usize, sled: &Sled) -> anyhow::Result<()> {
    let (skirt, start, goal) = (sled.skirt, sled.start, sled.goal);
    println!(rt;
        "sled {number} {} skirt {skirt} from {start} to {goal}",
        Shown(sled.shape)
    )?;
    Ok(())
}
