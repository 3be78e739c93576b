// How many steps a route has.
pub use grid::horizon::{Horizon, MAX_INSTANTS};
