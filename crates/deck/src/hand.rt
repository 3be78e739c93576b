// One call, made with the slip in hand or with none.
ghost use Rattle.std.specs.Prelude.{◌≡◌, true, Some, None, Ok, Err, MatchResult};
ghost use Rattle.deck.specs.declared.call.Done.TheVariants.{Released, Moved};
ghost use Rattle.deck.specs.Decks.{fits};
ghost use Rattle.deck.specs.Workings.{InHand, Answers};

use crate::Deck;
use crate::call::{Answer, Call, Done};
use crate::slip::{Returned, Slip};
use fault::cause::Fault;
use fleet::Fleet;
use search::Search;
use split::SplitRule;

// What came of a call, and the slip in hand after it.
pub(crate) struct Step {
    pub(crate) answer: Answer,
    pub(crate) hand: Option<Slip>,
}

// A slip that is handed back stays in hand.
impl From<Returned> for Step {
    ghost from_gives = { λ returned step. (step.answer ≡ Some (Err returned.fault)) × (step.hand ≡ Some returned.slip) };

    fn from(returned: Returned) -> Step {
        let Returned { fault, slip } = returned;
        Step {
            answer: Some(Err(fault)),
            hand: Some(slip),
        }
    }
}

impl Deck {
    // Makes a call with the slip in hand, if there is one.
    pub(crate) fn answer<F: Fleet, R: SplitRule>(
        &mut self,
        search: &Search<F, R>,
        call: Call,
        hand: Option<Slip>,
    ) -> Step
        requires { InHand self.old hand }
        ensures { Answers R.SplitRule.sets search.now self.old self.new call hand result.answer result.hand }
    {
        match (call, hand) {
            (Call::Release, None) => released(self.release(search)),
            (Call::Release, Some(slip)) => self.release_again(search, slip),
            (Call::Onward, Some(slip)) => moved(slip.onward()),
            (Call::Finish, Some(slip)) => {
                let done = Done::Finished(slip.numbers());
                taken(self.finish(slip), done)
            }
            (Call::Recall, Some(slip)) => {
                let done = Done::Recalled(slip.numbers());
                taken(self.recall(slip), done)
            }
            (Call::Onward | Call::Finish | Call::Recall, None) => Step {
                answer: None,
                hand: None,
            },
        }
    }

    // The deck is out on the run of the slip in hand, so it gives no other.
    fn release_again<F: Fleet, R: SplitRule>(&mut self, search: &Search<F, R>, slip: Slip) -> Step
        requires { fits slip.numbers self.old ≡ true }
        ensures { Answers R.SplitRule.sets search.now self.old self.new Call.Release (Some slip) result.answer result.hand }
    {
        let Err(fault) = self.release(search) else {
            unreachable()
        };
        Step::from(Returned { fault, slip })
    }
}

// What comes of a release. Apart from a move, which hands the slip back where it is refused.
fn released(given: Result<Slip, Fault>) -> Step
    ensures { MatchResult given (λ slip. (result.answer ≡ Some (Ok (Released slip.numbers))) × (result.hand ≡ Some slip)) (λ fault. (result.answer ≡ Some (Err fault)) × (result.hand ≡ None)) }
{
    match given {
        Ok(slip) => Step {
            answer: Some(Ok(Done::Released(slip.numbers()))),
            hand: Some(slip),
        },
        Err(fault) => Step {
            answer: Some(Err(fault)),
            hand: None,
        },
    }
}

// What comes of moving a slip on: it is one instant later, or it is handed back.
fn moved(handed: Result<Slip, Returned>) -> Step
    ensures { MatchResult handed (λ slip. (result.answer ≡ Some (Ok (Moved slip.numbers))) × (result.hand ≡ Some slip)) (λ r. (result.answer ≡ Some (Err r.fault)) × (result.hand ≡ Some r.slip)) }
{
    match handed {
        Ok(slip) => Step {
            answer: Some(Ok(Done::Moved(slip.numbers()))),
            hand: Some(slip),
        },
        Err(returned) => Step::from(returned),
    }
}

// What comes of handing in a slip: it was taken, or it is handed back.
fn taken(handed: Result<(), Returned>, done: Done) -> Step
    ensures { MatchResult handed (λ _. (result.answer ≡ Some (Ok done)) × (result.hand ≡ None)) (λ r. (result.answer ≡ Some (Err r.fault)) × (result.hand ≡ Some r.slip)) }
{
    match handed {
        Ok(()) => Step {
            answer: Some(Ok(done)),
            hand: None,
        },
        Err(returned) => Step::from(returned),
    }
}
