// How long a first route and a route count take on an open floor of 16 by 16. The sums of costs and counts are printed, and with the argument --time also the times.
#![tactic(auto)]

use std::time::Instant;
use std::{env, io};
use walk::errand::Errand;
use walk::horizon::Horizon;
use walk::route::first_route;
use walk::standing::Standing;
use walk::tally::tally;

const REPEATS: u32 = 1000;

const LONGEST: Horizon = Horizon { steps: 63 };

fn cost(sled: &Standing, errand: Errand) -> u64 {
    first_route(sled, errand).map_or(0, |found| u64::from(found.cost))
}

fn count(sled: &Standing, errand: Errand) -> u64 {
    u64::from(tally(sled, errand))
}

// From the top left to a corner and back, again and again: the sum of the figures.
fn summed<F: Fn(Errand) -> u64>(corner: u8, figure: F) -> u64
    requires { F.IsAlwaysCallable figure }
{
    let there = Errand {
        start: 0,
        goal: corner,
        horizon: LONGEST,
    };
    let back = Errand {
        start: corner,
        goal: 0,
        horizon: LONGEST,
    };
    let mut sum: u64 = 0;
    for _ in 0..REPEATS / 2 {
        sum = sum.wrapping_add(figure(there));
        sum = sum.wrapping_add(figure(back));
    }
    sum
}

// Prints a sum over all repeats, and the time that one of them took.
fn show(rt: &HostRuntime, what: &str, sum: u64, start: Instant, timed: bool) -> io::Result<()> {
    if !timed {
        return println!(rt; "{what}: {sum} in all");
    }
    let nanoseconds = start.elapsed(rt)?.as_nanos() / u128::from(REPEATS);
    println!(rt; "{what}: {sum} in all, {nanoseconds} ns each")
}

fn main(rt: HostRuntime) -> io::Result<()> {
    let timed = env::args(&rt)?.any(|word| word.as_str() == "--time");
    let small = Standing::open(16, 16);
    let large = Standing::open(9, 9);
    let shut = Standing::open(16, 15);
    let start = Instant::now(&rt)?;
    let sum = summed(255, |errand| cost(&small, errand));
    show(&rt, "first route, 1 by 1", sum, start, timed)?;
    let start = Instant::now(&rt)?;
    let sum = summed(136, |errand| cost(&large, errand));
    show(&rt, "first route, 8 by 8", sum, start, timed)?;
    let start = Instant::now(&rt)?;
    let sum = summed(255, |errand| cost(&shut, errand));
    show(&rt, "no route, 1 by 1", sum, start, timed)?;
    let start = Instant::now(&rt)?;
    let sum = summed(255, |errand| count(&small, errand));
    show(&rt, "route count, 1 by 1", sum, start, timed)
}
