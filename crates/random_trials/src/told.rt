// The plan that a search tells, judged by this program's own words.
use crate::case::Spot;
use crate::difference::Difference;
use crate::going::{Going, collide};
use crate::traveller::Traveller;
use std::alloc::{AllocError, Global};
use trial_tools::check::check;

// A sled with the route that is told of it, and its steps.
#[derive(Drop)]
pub struct Told<'a> {
    sled: &'a Traveller,
    pub route: Vec<Spot>,
    steps: Vec<Going>,
}

impl<'a> Told<'a> {
    pub fn new(
        alloc: Global,
        sled: &'a Traveller,
        route: Vec<Spot>,
    ) -> Result<Told<'a>, AllocError> {
        let mut steps = Vec::new(alloc);
        for (from, to) in route.iter().zip(route.iter().skip(1)) {
            steps.push(Going {
                from: *from,
                to: *to,
            })?;
        }
        Ok(Told { sled, route, steps })
    }

    // Whether it goes from its start to its goal step by step, and stands only where it may.
    fn is_route(&self) -> bool {
        self.route.first() == Some(&self.sled.start)
            && self.route.last() == Some(&self.sled.goal)
            && self.route.iter().all(|spot| self.sled.spots.contains(spot))
            && self.steps.iter().all(|going| going.is_step())
    }

    // The first instant from which on it is at its goal.
    fn cost(&self) -> u16 {
        let stays = |instant: &u16| {
            self.route
                .iter()
                .skip(usize::from(*instant))
                .all(|spot| *spot == self.sled.goal)
        };
        (0..u16::MAX).find(stays).unwrap_or(u16::MAX)
    }

    fn collides_with(&self, other: &Told) -> bool {
        self.steps.iter().zip(&other.steps).any(|(a, b)| {
            collide(self.sled.way(*a), other.sled.way(*b))
        })
    }
}

// The sum of a collision-free plan.
pub fn sum_of_plan(plan: &[Told]) -> Result<u16, Difference> {
    let mut sum: u16 = 0;
    for (number, told) in plan.iter().enumerate() {
        check(told.is_route(), Difference::RouteBroken)?;
        let collides = plan
            .iter()
            .take(number)
            .any(|other| told.collides_with(other));
        check(!collides, Difference::SledsCollide)?;
        sum = sum.saturating_add(told.cost());
    }
    Ok(sum)
}
