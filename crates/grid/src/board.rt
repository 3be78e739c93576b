// Steps on the board: where each move leads from a place, by place numbers.
ghost use Rattle.grid.specs.Board.{Neighbour};

use crate::moves::Move;
use crate::place::BOARD_SIDE;

// The place that a move leads to, if it lies on the board. Every byte is a place number.
pub fn neighbour(place: u8, towards: Move) -> Option<u8>
    ensures { Neighbour place towards result }
{
    match towards {
        Move::North => place.checked_sub(BOARD_SIDE),
        Move::West => (place % BOARD_SIDE > 0).then(|| place - 1),
        Move::Wait => Some(place),
        Move::East => (place % BOARD_SIDE < BOARD_SIDE - 1).then(|| place + 1),
        Move::South => place.checked_add(BOARD_SIDE),
    }
}
