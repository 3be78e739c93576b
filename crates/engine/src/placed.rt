// Where sleds are, and how they go, in the routes of a node. Past these there is no place, so a sled and an instant are asked to be within.
// They stay plain numbers: callers have them from a pair that is within, and a type of such numbers would be made again at each call.
ghost use Rattle.std.specs.Prelude.{◌≡◌, ◌+◌, ◌<◌};
ghost use Rattle.engine.specs.Table.{at_of};

use super::node::{MAX_SLEDS, Route};
use super::problem::{At, Going};
use walk::horizon::MAX_INSTANTS;
use walk::weight::Step;

// A sled where it is at an instant.
pub(crate) fn at(routes: &[Route; MAX_SLEDS], sled: usize, instant: u8) -> At
    requires { (sled < MAX_SLEDS) × (instant < MAX_INSTANTS) }
    ensures { result ≡ record { sled = sled; place = at_of routes.now sled instant } }
{
    At {
        sled,
        place: routes[sled][instant as usize],
    }
}

// The step of a sled that leaves an instant.
pub(crate) fn step(routes: &[Route; MAX_SLEDS], sled: usize, instant: u8) -> Step
    requires { (sled < MAX_SLEDS) × (instant + 1 < MAX_INSTANTS) }
    ensures { result ≡ record { instant = instant; from = at_of routes.now sled instant; to = at_of routes.now sled (instant + 1) } }
{
    let route = &routes[sled];
    let before = instant as usize;
    Step {
        instant,
        from: route[before],
        to: route[before + 1],
    }
}

// A sled as it goes in the step that leaves an instant.
pub(crate) fn going(routes: &[Route; MAX_SLEDS], sled: usize, instant: u8) -> Going
    requires { (sled < MAX_SLEDS) × (instant + 1 < MAX_INSTANTS) }
    ensures { result ≡ record { sled = sled; from = at_of routes.now sled instant; to = at_of routes.now sled (instant + 1) } }
{
    let Step { from, to, .. } = step(routes, sled, instant);
    Going { sled, from, to }
}
