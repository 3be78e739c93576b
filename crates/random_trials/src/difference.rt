// What a search answers otherwise than it should.
use fault::cause::Fault;
use std::alloc::AllocError;

#[derive(Clone, Copy, Debug)]
pub enum Difference {
    // the job
    FileRefused,
    OpenedWithoutStanding,
    OpeningRefused,
    // the turns
    CallRefused,
    TurnsMiscounted,
    StillWorking,
    TurnsAfterTheEnd,
    // the bounds
    BoundAbovePlan,
    BoundMissing,
    BoundFell,
    // the end
    SolvedWithoutPlan,
    SumNotLeast,
    RouteBroken,
    SledsCollide,
    RoutesCostOtherwise,
    LinesOtherwise,
    NoneDespitePlan,
    NoneWithBound,
    FullTooEarly,
    FullWithoutBound,
    // the machine
    NoMemory,
}

impl From<AllocError> for Difference {
    fn from(_error: AllocError) -> Difference {
        Difference::NoMemory
    }
}

impl From<Fault> for Difference {
    fn from(_fault: Fault) -> Difference {
        Difference::CallRefused
    }
}
