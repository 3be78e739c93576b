// A cell of the plane by its column and row, on the floor or beyond it on any side.
// Apart from a position: one type for both would be named with its kind of number wherever a clause speaks of either.

#[derive(Clone, Copy, PartialEq, Debug)]
pub struct Spot {
    pub column: i8,
    pub row: i8,
}
