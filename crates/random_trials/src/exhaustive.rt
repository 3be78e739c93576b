// The least sum of all collision-free plans, by trying every combination of moves: instant by instant, all that the sleds can have come to
// together. It knows nothing of the routes of single sleds, of bounds, or of a tree.
use crate::case::{Case, Spot};
use crate::going::{Way, collide};
use crate::traveller::Traveller;
use std::alloc::{AllocError, Global};
use std::collections::HashSet;

// The sleds of a case, of which there are three at most; those that it lacks are absent.
pub type Sleds = [Traveller; 3];

pub fn sleds_of(alloc: Global, case: &Case) -> Result<Sleds, AllocError> {
    let mut sleds = case.sleds.iter();
    let mut next = || match sleds.next() {
        Some(sled) => Traveller::of(alloc, &case.floor, sled),
        None => Traveller::absent(alloc),
    };
    Ok([next()?, next()?, next()?])
}

// Where a sled is, and what its way there costs so far: the last instant at which it was not at its goal, plus one.
#[derive(Clone, Copy, PartialEq, Eq, Hash)]
struct Stand {
    spot: Spot,
    cost: u16,
}

// All that the sleds can have come to at one instant.
type Layer = HashSet<[Stand; 3]>;

impl Traveller {
    // At a place at an instant, after a way of this cost.
    fn stand(&self, spot: Spot, instant: u8, cost: u16) -> Stand {
        if spot == self.goal {
            return Stand { spot, cost };
        }
        Stand {
            spot,
            cost: u16::from(instant) + 1,
        }
    }
}

// The step of all sleds that ends at an instant.
#[derive(Clone, Copy)]
struct Step<'a> {
    sleds: &'a Sleds,
    before: [Stand; 3],
    instant: u8,
}

impl Step<'_> {
    // Each step of the first sled.
    fn take(&self, next: &mut Layer) -> Result<(), AllocError> {
        let [first, _, _] = self.sleds;
        let [at, _, _] = self.before;
        for going in first.steps.iter().filter(|going| going.from == at.spot) {
            self.take_second(first.way(*going), next)?;
        }
        Ok(())
    }

    // With it each step of the second.
    fn take_second(&self, a: Way, next: &mut Layer) -> Result<(), AllocError> {
        let [_, second, _] = self.sleds;
        let [_, at, _] = self.before;
        for going in second.steps.iter().filter(|going| going.from == at.spot) {
            let b = second.way(*going);
            if !collide(a, b) {
                self.take_third(a, b, next)?;
            }
        }
        Ok(())
    }

    // With both each step of the third.
    fn take_third(&self, a: Way, b: Way, next: &mut Layer) -> Result<(), AllocError> {
        let [_, _, third] = self.sleds;
        let [_, _, at] = self.before;
        for going in third.steps.iter().filter(|going| going.from == at.spot) {
            let c = third.way(*going);
            if !collide(a, c) && !collide(b, c) {
                next.insert(self.after(a, b, c))?;
            }
        }
        Ok(())
    }

    fn after(&self, a: Way, b: Way, c: Way) -> [Stand; 3] {
        let [first, second, third] = self.sleds;
        let [from_first, from_second, from_third] = self.before;
        [
            first.stand(a.going.to, self.instant, from_first.cost),
            second.stand(b.going.to, self.instant, from_second.cost),
            third.stand(c.going.to, self.instant, from_third.cost),
        ]
    }
}

// The least sum of costs of a collision-free plan of so many steps, if there is one.
pub fn least_sum(alloc: Global, sleds: &Sleds, horizon: u8) -> Result<Option<u16>, AllocError> {
    let mut layer = first_layer(alloc, sleds)?;
    for instant in 1..=horizon {
        layer = next_layer(alloc, sleds, &layer, instant)?;
    }
    Ok(
        layer
            .iter()
            .filter(|joint| is_at_goals(sleds, joint))
            .map(sum)
            .min(),
    )
}

fn first_layer(alloc: Global, sleds: &Sleds) -> Result<Layer, AllocError> {
    let [a, b, c] = sleds;
    let mut layer = HashSet::new(alloc);
    layer.insert([
        a.stand(a.start, 0, 0),
        b.stand(b.start, 0, 0),
        c.stand(c.start, 0, 0),
    ])?;
    Ok(layer)
}

fn next_layer(
    alloc: Global,
    sleds: &Sleds,
    layer: &Layer,
    instant: u8,
) -> Result<Layer, AllocError> {
    let mut next = HashSet::new(alloc);
    for before in layer {
        let step = Step {
            sleds,
            before: *before,
            instant,
        };
        step.take(&mut next)?;
    }
    Ok(next)
}

fn is_at_goals(sleds: &Sleds, joint: &[Stand; 3]) -> bool {
    sleds
        .iter()
        .zip(joint)
        .all(|(sled, stand)| stand.spot == sled.goal)
}

fn sum(joint: &[Stand; 3]) -> u16 {
    joint
        .iter()
        .fold(0, |sum, stand| sum.saturating_add(stand.cost))
}
