// Filling and asking the table of what is forbidden.
ghost use Rattle.std.specs.Prelude.{◌≡◌, ℕ, ◌+◌, ◌<◌, ◌≤◌, false, ◌&&◌, ◌||◌, List, ◌∷◌, length, ◌==◌, slice_index_or};
ghost use Rattle.few.specs.Told.{told};
ghost use Rattle.tree.specs.Constraints as constraints;
ghost use Rattle.engine.specs.Table.{constraint_of};
ghost use Rattle.engine.specs.Forbids.{marked, listed, is_forbidden, Collected, FitsTable};

use super::forbidden::Forbidden;
use super::node::{Constraint, MAX_MOVES, PlaceSet};
use few::Few;
use grid::place::BOARD_PLACES;
use std::array;
use walk::horizon::MAX_INSTANTS;
use walk::weight::Step;

// The places that are in one set or in the other.
fn union(one: &PlaceSet, other: &PlaceSet) -> PlaceSet
    ensures { (p : ℕ) → p < BOARD_PLACES → slice_index_or result p false ≡ (slice_index_or one.now p false || slice_index_or other.now p false) }
{
    array::from_fn(
        |place|
            requires { place < BOARD_PLACES }
            ensures { result ≡ (slice_index_or one.entry.now place false || slice_index_or other.entry.now place false) }
        { one[place] || other[place] },
    )
}

impl Forbidden {
    // Nothing is forbidden.
    pub(crate) fn nothing() -> Forbidden
        ensures empty { (bs : List constraints.Constraint) → Collected result bs bs }
        ensures free { length (told result.moves) ≡ 0 }
    {
        let nowhere = Step {
            instant: 0,
            from: 0,
            to: 0,
        };
        Forbidden {
            places: [[false; BOARD_PLACES]; MAX_INSTANTS],
            leaving: [[false; BOARD_PLACES]; MAX_INSTANTS],
            moves: Few::new(nowhere),
        }
    }

    // Whether a move is in the list. It is seldom asked; inlined into `forbids`, which each step of a walk asks, it makes a search slower.
    #[inline(never)]
    fn has_move(&self, step: Step) -> bool
        ensures { result ≡ listed (told self.now.moves) step.instant step.from step.to }
    {
        self.moves.as_slice().contains(&step)
    }

    // Whether a step is forbidden. The list of moves is looked through only where some move from that place is in it.
    pub(crate) fn forbids(&self, step: Step) -> bool
        requires { step.instant + 1 < MAX_INSTANTS }
        ensures { result ≡ is_forbidden self.now step.instant step.from step.to }
    {
        let before = step.instant as usize;
        self.places[before][step.from as usize]
            || self.places[before + 1][step.to as usize]
            || (self.leaving[before][step.from as usize] && self.has_move(step))
    }

    // Marks the place that a forbidden move leaves.
    fn mark_leaving(&mut self, step: Step)
        requires { step.instant < MAX_INSTANTS }
        ensures marks { (t p : ℕ) → t < MAX_INSTANTS → p < BOARD_PLACES → marked self.new.leaving t p ≡ (marked self.old.leaving t p || (step.instant == t && step.from == p)) }
        ensures same { (self.new.places ≡ self.old.places) × (self.new.moves ≡ self.old.moves) }
    {
        let row = &mut self.leaving[step.instant as usize];
        row[step.from as usize] = true;
    }

    // Forbids more.
    pub(crate) fn add(&mut self, constraint: Constraint)
        requires room { length (told self.old.moves) < MAX_MOVES }
        requires fits { FitsTable constraint }
        ensures room { length (told self.new.moves) ≤ length (told self.old.moves) + 1 }
        ensures added { (rest all : List constraints.Constraint) → Collected self.old (constraint_of constraint ∷ rest) all → Collected self.new rest all }
    {
        match constraint {
            Constraint::Places(instant, set) => {
                let row = self.places[instant as usize];
                self.places[instant as usize] = union(&row, &set);
            }
            Constraint::Move(step) => {
                self.mark_leaving(step);
                // There is room for it, as the caller says.
                let Ok(()) = self.moves.push(step) else {
                    unreachable()
                };
            }
        }
    }
}
