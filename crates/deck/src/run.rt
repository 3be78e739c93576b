// A list of calls with one deck and one search, each made with the slip that the calls before it left in hand.
ghost use Rattle.std.specs.Prelude.{◌≤◌, length};
ghost use Rattle.deck.specs.Runs.{Runs};
ghost use Rattle.deck.specs.Workings.{InHand, Makes, Closes};

use crate::Deck;
use crate::call::{Answer, Call};
use crate::hand::Step;
use crate::slip::Slip;
use fault::cause::{Cause, Fault};
use fleet::Fleet;
use search::Search;
use split::SplitRule;

impl Deck {
    // Makes the calls in their order, and writes what each of them answered. It begins with no slip in hand; one that is in hand after
    // the last call is recalled.
    pub fn run<F: Fleet, R: SplitRule>(
        &mut self,
        search: &Search<F, R>,
        calls: &[Call],
        answers: &mut [Answer],
    ) -> Result<(), Fault>
        ensures { Runs R.SplitRule.sets search.now calls.now self.old self.new answers.old answers.new result }
    {
        if answers.len() < calls.len() {
            return Err(Cause::BufferTooShort.into());
        }
        let hand = self.make_calls(search, calls, answers);
        self.close(hand);
        Ok(())
    }

    // Makes the calls, and hands out the slip that is left.
    fn make_calls<F: Fleet, R: SplitRule>(
        &mut self,
        search: &Search<F, R>,
        calls: &[Call],
        answers: &mut [Answer],
    ) -> Option<Slip>
        requires { length calls.now ≤ length answers.old }
        ensures { Makes R.SplitRule.sets search.now calls.now self.old self.new answers.old answers.new result }
    {
        let mut hand = None;
        // By index: of what a loop writes through a `zip` with `iter_mut` a proof knows the length alone.
        for (i, call) in calls.iter().enumerate() {
            Step {
                answer: answers[i],
                hand,
            } = self.answer(search, *call, hand);
        }
        hand
    }

    // Recalls the slip in hand.
    fn close(&mut self, hand: Option<Slip>)
        requires { InHand self.old hand }
        ensures { Closes self.old self.new hand }
    {
        if let Some(slip) = hand
            && self.recall(slip).is_err()
        {
            unreachable()
        }
    }
}
