// Why something is turned away, and where: the cause, its number and its layer.
ghost use Rattle.std.specs.Prelude.{◌≡◌};
ghost use Rattle.fault.specs.Causes.{number_of, layer_of, layer_number, fault_at};

// The part of the planner that a cause belongs to, with its number.
#[derive(Clone, Copy, PartialEq, Debug)]
pub enum Layer {
    Bytes = 1,
    Job = 2,
    Standing = 3,
    Search = 4,
    Deck = 5,
}

// Every cause, with its number.
#[derive(Clone, Copy, PartialEq, Debug)]
pub enum Cause {
    EndsInsideField = 1,
    TagNotDue = 2,
    WrongLength = 3,
    ValueOutsideLimits = 4,
    OffsetTooFar = 5,
    SledCount = 6,
    BytesAfterEnd = 7,
    SearchNotIdle = 8,
    FleetNotOfJob = 9,
    CannotStand = 10,
    WrongState = 11,
    NoTurns = 12,
    NotSolved = 13,
    NumberTooHigh = 14,
    DeckNotFree = 15,
    BufferTooShort = 16,
    SlipNotOfRun = 17,
    WrongInstant = 18,
}

// A cause with its place: a byte of the job file, a sled, or 0. No option, as the line of a refusal shows 0 where there is no place.
#[derive(Clone, Copy, PartialEq, Debug)]
pub struct Fault {
    pub cause: Cause,
    pub place: usize,
}

impl From<Layer> for u8 {
    ghost from_gives = { λ layer number. number ≡ layer_number layer };

    fn from(layer: Layer) -> u8 {
        layer as u8
    }
}

impl From<Cause> for u8 {
    ghost from_gives = { λ cause number. number ≡ number_of cause };

    fn from(cause: Cause) -> u8 {
        cause as u8
    }
}

// A fault that no byte and no sled is named for has place 0.
impl From<Cause> for Fault {
    ghost from_gives = { λ cause fault. fault ≡ fault_at cause 0 };

    fn from(cause: Cause) -> Fault {
        cause.at(0)
    }
}

impl Cause {
    pub fn layer(self) -> Layer
        ensures { result ≡ layer_of self }
    {
        match self {
            Cause::EndsInsideField | Cause::TagNotDue | Cause::WrongLength => Layer::Bytes,
            Cause::ValueOutsideLimits
            | Cause::OffsetTooFar
            | Cause::SledCount
            | Cause::BytesAfterEnd => Layer::Job,
            Cause::FleetNotOfJob | Cause::CannotStand => Layer::Standing,
            Cause::DeckNotFree | Cause::SlipNotOfRun | Cause::WrongInstant => Layer::Deck,
            _ => Layer::Search,
        }
    }

    // The fault of this cause at a place.
    pub fn at(self, place: usize) -> Fault
        ensures { result ≡ fault_at self place }
    {
        Fault { cause: self, place }
    }
}
