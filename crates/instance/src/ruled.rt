// An instance with a splitting rule, as the problem that a search has to solve.
ghost use Rattle.std.specs.Prelude.{◌≡◌, ℕ, ◌<◌, false, slice_index_or};
ghost use Rattle.plans.specs.Instance.{in_set};
ghost use Rattle.instance.specs.Instances.{task_in, model_of};
ghost use Rattle.instance.specs.Sets.{split_terms};
ghost use Rattle.instance.specs.Terms.{keeps_terms};

use crate::instance::Instance;
use crate::meeting::pair_at;
use engine::node::{PlaceSet, Sets};
use engine::problem::{At, Going, Problem};
use grid::place::Place;
use split::SplitRule;
use split::pair::Side;
use std::array;
use walk::horizon::Horizon;
use walk::weight::Step;

#[derive(Drop)]
pub struct Ruled<'a, R> {
    pub instance: &'a Instance,
    pub rule: &'a R,
}

impl<R: SplitRule> Ruled<'_, R> {
    // The set of a side, where two sleds meet.
    fn set_of(&self, side: Side, a: At, b: At) -> PlaceSet
        ensures { (w : ℕ) → w < 256 → slice_index_or result w false ≡ in_set (task_in self.now.instance.now) (R.SplitRule.sets self.now.rule.now) side a.sled b.sled a.place b.place w }
    {
        array::from_fn(|number| self.holds(side, a, b, number as u8))
    }

    // Whether a place is in the set of a side. At such a place the sled still meets the other, so the rule is asked of no others.
    fn holds(&self, side: Side, a: At, b: At, place: u8) -> bool
        ensures { result ≡ in_set (task_in self.now.instance.now) (R.SplitRule.sets self.now.rule.now) side a.sled b.sled a.place b.place place }
    {
        let meets = match side {
            Side::Lower => self.instance.meet(At { place, ..a }, b),
            Side::Upper => self.instance.meet(a, At { place, ..b }),
        };
        meets && self.contains(side, a, b, place)
    }

    // The same by the rule alone, which knows no sled that is of no fleet.
    fn contains(&self, side: Side, a: At, b: At, place: u8) -> bool
        ensures { result ≡ in_set (task_in self.now.instance.now) (R.SplitRule.sets self.now.rule.now) side a.sled b.sled a.place b.place place }
    {
        pair_at(a, b).is_some_and(|pair| {
            self.rule
                .contains(self.instance.fleet(), pair, side, Place::from(place))
        })
    }
}

impl<R: SplitRule> Problem for Ruled<'_, R> {
    ghost model = { λ p. model_of (task_in p.instance.now) (R.SplitRule.sets p.rule.now) };

    ghost keeps = { λ p.
        let r = p.rule.now in
        let rule = R.SplitRule in
        let sets = R.SplitRule.sets r in
        keeps_terms p.instance.now sets (split_terms sets (rule.lower r) (rule.upper r) (rule.share r) (rule.only r)) };

    fn sleds(&self) -> usize {
        self.instance.sleds()
    }

    fn horizon(&self) -> Horizon {
        self.instance.horizon()
    }

    fn start(&self, sled: usize) -> u8 {
        self.instance.start(sled)
    }

    fn goal(&self, sled: usize) -> u8 {
        self.instance.goal(sled)
    }

    fn allows(&self, sled: usize, step: Step) -> bool {
        self.instance.stands(sled, step.from) && self.instance.stands(sled, step.to)
    }

    fn meets(&self, a: At, b: At) -> bool {
        self.instance.meet(a, b)
    }

    fn collides(&self, a: Going, b: Going) -> bool {
        self.instance.collide(a, b)
    }

    fn splits(&self, a: At, b: At) -> Sets {
        Sets {
            lower: self.set_of(Side::Lower, a, b),
            higher: self.set_of(Side::Upper, a, b),
        }
    }
}
