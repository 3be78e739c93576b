// Steps from one place to another.
ghost use Rattle.std.specs.Prelude.{◌≡◌};
ghost use Rattle.instance.specs.Steps.{MoveTold};

use engine::problem::{At, Going};
use grid::board::neighbour;
use grid::moves::{MOVES, Move};

// The move that leads from one place to another, if they are a step apart.
pub(crate) fn move_between(from: u8, to: u8) -> Option<Move>
    ensures { MoveTold from to result }
{
    MOVES
        .iter()
        .copied()
        .find(|towards| neighbour(from, *towards) == Some(to))
}

// A sled before its step.
pub(crate) fn leaving(going: Going) -> At
    ensures { result ≡ record { sled = going.sled; place = going.from } }
{
    At {
        sled: going.sled,
        place: going.from,
    }
}

// A sled after its step.
pub(crate) fn arriving(going: Going) -> At
    ensures { result ≡ record { sled = going.sled; place = going.to } }
{
    At {
        sled: going.sled,
        place: going.to,
    }
}
