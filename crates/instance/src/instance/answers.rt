// What an instance tells, by numbers of sleds and places.
ghost use Rattle.std.specs.Prelude.{◌≡◌, ◌||◌, None, IfSome, slice_index_or};
ghost use Rattle.grid.specs.Places.{number_of, position_of, position_at};
ghost use Rattle.geometry.specs.Shares.{share_cell};
ghost use Rattle.geometry.specs.Collisions.{collide};
ghost use Rattle.tables.specs.DifferenceSets.{DifferencesOf};
ghost use Rattle.tables.specs.TabledFleets.{tabled_sleds};
ghost use Rattle.plans.specs.Instance.{stands_at, meets_at, collides_in};
ghost use Rattle.instance.specs.Instances.{task_in};

use crate::ends::Ends;
use crate::instance::Instance;
use crate::meeting::pair_at;
use crate::step::{arriving, leaving, move_between};
use engine::problem::{At, Going};
use fleet::Fleet;
use geometry::collision::collides;
use geometry::sharing::shares_cell;
use grid::moves::Move;
use grid::place::Place;
use split::pair::Pair;
use tables::differences::Differences;
use tables::tabled::Tabled;
use walk::horizon::Horizon;

impl Instance {
    pub(crate) fn sleds(&self) -> usize
        ensures { result ≡ (task_in self.now).sleds }
    {
        self.fleet.count() as usize
    }

    pub(crate) fn horizon(&self) -> Horizon
        ensures { result.steps ≡ (task_in self.now).horizon }
    {
        self.horizon
    }

    pub(crate) fn fleet(&self) -> &Tabled
        ensures { result.now ≡ self.now.fleet }
    {
        &self.fleet
    }

    // Where a sled of the job begins and ends.
    fn ends(&self, sled: usize) -> Option<Ends>
        ensures { result ≡ slice_index_or self.now.ends sled None }
    {
        *self.ends.get(sled)?
    }

    pub(crate) fn start(&self, sled: usize) -> u8
        ensures { result ≡ number_of ((task_in self.now).start sled) }
    {
        self.ends(sled).map_or(0, |ends| ends.start)
    }

    pub(crate) fn goal(&self, sled: usize) -> u8
        ensures { result ≡ number_of ((task_in self.now).goal sled) }
    {
        self.ends(sled).map_or(0, |ends| ends.goal)
    }

    // A sled that the fleet does not have may stand at every place of the floor.
    pub(crate) fn stands(&self, sled: usize, place: u8) -> bool
        ensures { result ≡ stands_at (task_in self.now) sled place }
    {
        self.standing.get(sled).map_or_else(
            || self.floor.has(Place::from(place)),
            |places| places[place as usize],
        )
    }

    // The differences of a lower and a higher sled of the fleet.
    fn differences(&self, pair: Pair) -> Option<&Differences>
        ensures { IfSome result (λ d. ∥ DifferencesOf (tabled_sleds self.now.fleet pair.i) (tabled_sleds self.now.fleet pair.j) d.now ∥₁) }
    {
        self.pairs
            .get(pair.i as usize)?
            .get(pair.j as usize)?
            .as_ref()
    }

    // Whether the two sleds share a cell.
    fn share_cell(&self, pair: Pair) -> bool
        ensures { result ≡ share_cell (tabled_sleds self.now.fleet pair.i) (position_of pair.u) (tabled_sleds self.now.fleet pair.j) (position_of pair.v) }
    {
        self.differences(pair).map_or_else(
            || shares_cell(&self.fleet, pair),
            |differences| differences.shares_cell(pair.u, pair.v),
        )
    }

    // Whether the two sleds collide, where the first moves by a and the second by b.
    fn collide_moving(&self, pair: Pair, a: Move, b: Move) -> bool
        ensures { result ≡ collide (tabled_sleds self.now.fleet pair.i) (position_of pair.u) a (tabled_sleds self.now.fleet pair.j) (position_of pair.v) b }
    {
        self.differences(pair).map_or_else(
            || collides(&self.fleet, pair, a, b),
            |differences| differences.collides(pair.u, a, pair.v, b),
        )
    }

    // Whether two sleds meet where they are.
    pub(crate) fn meet(&self, a: At, b: At) -> bool
        ensures { result ≡ meets_at (task_in self.now) a.sled b.sled a.place b.place }
    {
        pair_at(a, b).is_some_and(|pair| self.share_cell(pair))
    }

    // Whether two sleds collide in one step. Where one of them makes no step, it only counts whether they meet.
    pub(crate) fn collide(&self, a: Going, b: Going) -> bool
        ensures { result ≡ collides_in (task_in self.now) a.sled b.sled a.from a.to b.from b.to }
    {
        match move_between(a.from, a.to).zip(move_between(b.from, b.to)) {
            Some((first, second)) => self.collide_by(leaving(a), first, leaving(b), second),
            None => self.meet(leaving(a), leaving(b)) || self.meet(arriving(a), arriving(b)),
        }
    }

    // Whether two sleds collide, each of which makes a move from where it is.
    fn collide_by(&self, a: At, first: Move, b: At, second: Move) -> bool
        ensures { result ≡ collide (tabled_sleds self.now.fleet a.sled) (position_at a.place) first (tabled_sleds self.now.fleet b.sled) (position_at b.place) second }
    {
        pair_at(a, b).is_some_and(|pair| self.collide_moving(pair, first, second))
    }
}
