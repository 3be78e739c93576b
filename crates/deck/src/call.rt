// Calls that can be made one after the other with one deck and one search, and their answers.
use crate::slip::SlipNumbers;
use fault::cause::Fault;

// Release the search's plan; hand in the slip that is held.
#[derive(Clone, Copy, PartialEq, Debug)]
pub enum Call {
    Release,
    Onward,
    Finish,
    Recall,
}

// What a call did: a slip was given; the slip is one instant later; it was taken at its end, or before.
#[derive(Clone, Copy, PartialEq, Debug)]
pub enum Done {
    Released(SlipNumbers),
    Moved(SlipNumbers),
    Finished(SlipNumbers),
    Recalled(SlipNumbers),
}

// What came of a call: what it did, or a refusal, which changes nothing; or none where no slip was held that could be handed in.
pub type Answer = Option<Result<Done, Fault>>;
