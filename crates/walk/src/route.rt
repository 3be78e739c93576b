// The first route of least cost.
ghost use Rattle.std.specs.Prelude.{◌≡◌, ◌<◌, true, false, ◌&&◌, MatchOption, find, slice_index_or};
ghost use Rattle.grid.specs.Board.{next};
ghost use Rattle.walk.specs.Kinds.{either_both};
ghost use Rattle.walk.specs.Promises.{NoRoute, FirstRoute};
ghost use Rattle.walk.specs.Sequences.{total};
ghost use Rattle.walk.specs.Workings.{Charted, Traces};

use crate::arrival::earliest;
use crate::chart::chart;
use crate::errand::Errand;
use crate::horizon::MAX_INSTANTS;
use crate::reversed::Reversed;
use crate::rows::Layer;
use crate::weight::{Step, Steps};
use grid::board::neighbour;
use grid::moves::MOVES;
use grid::place::BOARD_PLACES;

// A route and its cost. The places stand from instant 0 on, and from the horizon on they are the goal.
#[derive(Clone, Copy, PartialEq, Debug)]
pub struct Found {
    pub cost: u8,
    pub places: [u8; MAX_INSTANTS],
}

// The first place one step from `from` to which a step is allowed and that leads on to the goal.
fn choose<S: Steps<bool>>(steps: &S, instant: u8, from: u8, leads: &Layer<bool>) -> Option<u8>
    ensures { result ≡ find (λ q. S.step steps.now instant from q && slice_index_or leads.now q false) (next from) }
{
    MOVES
        .iter()
        .filter_map(move |towards| neighbour(from, *towards))
        .find(move |to| {
            steps.weight(Step {
                instant,
                from,
                to: *to,
            }) && leads[*to as usize]
        })
}

// The places of the first sequence that reaches the goal at instant `cost`, and the goal after them. The table tells from where it can be reached.
fn trace<S: Steps<bool>>(
    steps: &S,
    start: u8,
    goal: u8,
    cost: u8,
    table: &[Layer<bool>; MAX_INSTANTS],
) -> [u8; MAX_INSTANTS]
    requires in_time { cost < MAX_INSTANTS }
    requires charted { Charted (S.step steps.now) goal cost table.now }
    requires reached { total either_both (S.step steps.now) cost 0 start goal ≡ true }
    ensures { Traces (S.step steps.now) start goal cost result }
{
    let mut places = [goal; MAX_INSTANTS];
    let mut at = start;
    places[0] = at;
    // By hand: in a fold's closure it stays open that there is a place to choose, which the loop's invariant tells.
    for instant in 0..cost {
        let left = cost - instant - 1;
        let Some(to) = choose(steps, instant, at, &table[left as usize]) else {
            unreachable()
        };
        at = to;
        places[instant as usize + 1] = at;
    }
    places
}

// The first of the routes of least cost, or nothing where there is no route.
pub fn first_route<S: Steps<bool>>(steps: &S, errand: Errand) -> Option<Found>
    ensures { MatchOption result (NoRoute (S.step steps.now) errand.horizon.steps errand.start errand.goal) (FirstRoute (S.step steps.now) errand.horizon.steps errand.start errand.goal) }
{
    let Errand { start, goal, .. } = errand;
    let cost = earliest(steps, errand)?;
    let back = Reversed { steps, last: cost };
    let mut table = [[false; BOARD_PLACES]; MAX_INSTANTS];
    chart(&back, goal, cost, &mut table);
    let places = trace(steps, start, goal, cost, &table);
    Some(Found { cost, places })
}
