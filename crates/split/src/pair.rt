// Two sleds and where they are, and the two sides of a pair.
pub use geometry::pair::Pair;

// The sled with the lower number, or the other.
#[derive(Clone, Copy, PartialEq, Debug)]
pub enum Side {
    Lower,
    Upper,
}
