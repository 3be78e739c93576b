// How many sleds there may be.

pub const MAX_SLEDS: usize = 6;
