// What a sled has to do: to go from a start to a goal, and to be there at the horizon.
use crate::horizon::Horizon;

#[derive(Clone, Copy, PartialEq, Debug)]
pub struct Errand {
    pub start: u8,
    pub goal: u8,
    pub horizon: Horizon,
}
