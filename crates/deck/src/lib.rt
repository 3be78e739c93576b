// Runs of a solved plan: a deck releases one at a time, and a slip that cannot be lost stands for it until it is finished or recalled.
#![tactic(auto)]

ghost use Rattle.deck.specs.Law.{HistoriesAreLawful};
ghost use Rattle.deck.specs.Calls.{CallsAreLawful};

pub mod call;
mod hand;
mod release;
mod run;
pub mod slip;
mod state;

pub use state::Deck;

// Whatever slips are handed in, and in whatever order, the calls of one deck keep the law of runs: as its answers tell them, and as the
// contracts of `release`, `onward`, `finish` and `recall` do.
pub fn runs_are_lawful()
    ensures histories { HistoriesAreLawful }
    ensures calls { CallsAreLawful }
{}
