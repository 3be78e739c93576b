// A sled of a job: its shape, its skirt, its start and its goal.
use crate::shape::Shape;
pub use grid::limits::MAX_SLEDS;
use grid::place::Place;

#[derive(Clone, Copy)]
pub struct Sled {
    pub shape: Shape,
    // how many cells around the shape are kept free too
    pub skirt: u8,
    pub start: Place,
    pub goal: Place,
}
