// What a search tells when it has ended.
ghost use Rattle.std.specs.Prelude.{◌<◌, ◌≤◌, length};
ghost use Rattle.grid.specs.declared.horizon.TheConstants.{MAX_INSTANTS};
ghost use Rattle.grid.specs.declared.limits.TheConstants.{MAX_SLEDS};

use crate::outcome::Outcome;

mod calls;

pub use calls::write_report;
pub use grid::horizon::MAX_INSTANTS;
pub use grid::limits::MAX_SLEDS;

// The outcome, the turns made, and the route of each sled by place numbers at the instants from 0 to the last one.
// The last instant stands beside the rows: they are lent as the caller holds them, in memory of one size for every horizon.
#[derive(Clone, Copy)]
pub struct Report<'a> {
    pub outcome: Outcome,
    pub turns: usize,
    pub routes: &'a [[u8; MAX_INSTANTS]],
    pub last: u8,
    ghost few: { length routes.now ≤ MAX_SLEDS },
    ghost short: { last < MAX_INSTANTS },
}
