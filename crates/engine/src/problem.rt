// What the engine asks of a problem.
ghost use Rattle.std.specs.Prelude.{◌≡◌, ℕ, ◌<◌, false, slice_index_or};
ghost use Rattle.engine.specs.Model.{Model, Keeps};

use super::node::Sets;
use grid::place::BOARD_PLACES;
use walk::horizon::Horizon;
use walk::weight::Step;

// A sled at a place.
#[derive(Clone, Copy, PartialEq, Debug)]
pub struct At {
    pub sled: usize,
    pub place: u8,
}

// A sled that goes from one place to another in a step.
#[derive(Clone, Copy, PartialEq, Debug)]
pub struct Going {
    pub sled: usize,
    pub from: u8,
    pub to: u8,
}

// Sleds, places and instants are told by their numbers. Whatever the numbers, there is an answer. Two sleds are asked about as two: who
// asks has them apart, and each is looked at by itself.
pub trait Problem {
    ghost model: { Self → Model };

    fn sleds(&self) -> usize
        ensures { result ≡ (model self.now).setting.sleds };

    fn horizon(&self) -> Horizon
        ensures { result.steps ≡ (model self.now).setting.horizon };

    fn start(&self, sled: usize) -> u8
        ensures { result ≡ (model self.now).setting.start sled };

    fn goal(&self, sled: usize) -> u8
        ensures { result ≡ (model self.now).setting.goal sled };

    // Whether the sled may take a step to a place that is a step away. This is asked in the innermost loop, and only of places a step
    // apart.
    fn allows(&self, sled: usize, step: Step) -> bool
        ensures { result ≡ (model self.now).allowed sled step.instant step.from step.to };

    // Whether two sleds meet where they are.
    fn meets(&self, a: At, b: At) -> bool
        ensures { result ≡ (model self.now).setting.meets a.sled b.sled a.place b.place };

    // Whether two sleds collide in one step.
    fn collides(&self, a: Going, b: Going) -> bool
        ensures { result ≡ (model self.now).setting.collides a.sled b.sled a.from a.to b.from b.to };

    // Where two sleds meet: the places that each of them is to be kept from.
    fn splits(&self, a: At, b: At) -> Sets
        ensures lower { (w : ℕ) → w < BOARD_PLACES → slice_index_or result.lower w false ≡ (model self.now).first a.sled b.sled a.place b.place w }
        ensures higher { (w : ℕ) → w < BOARD_PLACES → slice_index_or result.higher w false ≡ (model self.now).second a.sled b.sled a.place b.place w };

    ghost keeps: { (p : Self) → Keeps (model p) };
}
