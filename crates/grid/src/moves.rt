// What a sled does in one step: it goes to one of four neighbours, or waits.

// In ascending order of the place numbers that they lead to.
#[derive(Clone, Copy, PartialEq, Debug)]
pub enum Move {
    North,
    West,
    Wait,
    East,
    South,
}

pub const MOVES: [Move; 5] = [Move::North, Move::West, Move::Wait, Move::East, Move::South];
