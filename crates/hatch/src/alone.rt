// Each sled alone: whether it may stand at its start and its goal, its first route of least cost, and how many there are.
use crate::printed::Route;
use geometry::standing::may_stand;
use job::job::Job;
use standard::JobFleet;
use standing::standing_places;
use walk::errand::Errand;
use walk::route::first_route;
use walk::standing::Standing;
use walk::tally::tally;

pub fn show_standing(rt: &HostRuntime, job: &Job, fleet: &JobFleet) -> anyhow::Result<()> {
    let floor = job.floor();
    for (number, sled) in job.sleds().iter().enumerate() {
        let start = word(may_stand(fleet, number as u8, &floor, sled.start));
        let goal = word(may_stand(fleet, number as u8, &floor, sled.goal));
        println!(rt; "standing {number} start {start} goal {goal}")?;
    }
    Ok(())
}

fn word(yes: bool) -> &'static str {
    if yes { "yes" } else { "no" }
}

pub fn show_routes(rt: &HostRuntime, job: &Job, fleet: &JobFleet) -> anyhow::Result<()> {
    let floor = job.floor();
    for (number, sled) in job.sleds().iter().enumerate() {
        let at = standing_places(fleet, number as u8, &floor);
        let errand = Errand {
            start: u8::from(sled.start),
            goal: u8::from(sled.goal),
            horizon: job.span(),
        };
        show_route(rt, number, &Standing { at }, errand)?;
    }
    Ok(())
}

fn show_route(
    rt: &HostRuntime,
    number: usize,
    standing: &Standing,
    errand: Errand,
) -> anyhow::Result<()> {
    match first_route(standing, errand) {
        None => println!(rt; "alone {number} no route")?,
        Some(found) => {
            let count = tally(standing, errand);
            let cost = found.cost;
            let route = Route(&found.places[..=usize::from(errand.horizon.steps)]);
            println!(rt; "alone {number} cost {cost} routes {count}{route}")?
        }
    }
    Ok(())
}
