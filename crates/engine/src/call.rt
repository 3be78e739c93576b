// What a search is asked and what it answers.

// The verdicts as they are told.
#[derive(Clone, Copy, PartialEq, Debug)]
pub enum Status {
    Working,
    Solved,
    Unsolvable,
    Full,
}

// The search has ended; no turns are asked for; it is not solved; the sled or the instant is too high.
#[derive(Clone, Copy, PartialEq, Debug)]
pub enum Refusal {
    Ended,
    NoTurns,
    NotSolved,
    TooHigh,
}

// Make so many turns; tell the bound; tell the verdict; tell the place of a sled at an instant.
#[derive(Clone, Copy, PartialEq, Debug)]
pub enum Call {
    Advance(u32),
    Bound,
    Verdict,
    Place { sled: usize, instant: usize },
}

// What each of these calls answers. A whole search answers each in another kind: one enum for both would have four parameters.
#[derive(Clone, Copy, PartialEq, Debug)]
pub enum Answer {
    Advanced(Result<u32, Refusal>),
    Bounded(Option<u16>),
    Judged(Status),
    Placed(Result<u8, Refusal>),
}
