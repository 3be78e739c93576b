// Runs of a deck: what its calls give, and what they refuse, in which order.
#![tactic(auto)]

#[cfg(test)]
mod tests {
    use deck::Deck;
    use deck::call::{Call, Done};
    use deck::slip::{Returned, Slip, SlipNumbers};
    use fault::cause::{Cause, Fault};
    use job::job::Job;
    use search::Search;
    use split::shared_cell::SharedCell;
    use standard::{JobFleet, fleet_of};
    use std::process::Abort;
    use std::test::Fail;

    // A sled that goes from one end of an aisle of three cells to the other, in three steps: its cost is 2.
    const AISLE: &[u8; 29] =
        b"H\0\x01\x03N\0\x01\x01F\0\x05\x03\x01...R\0\x07\x01\x01\0\0\0\x02\0E\0\0";

    // A search that has the aisle open, and has made no turn.
    fn opened(rt: &HostRuntime) -> Result<Search<JobFleet, SharedCell>, Fail> {
        let mut job = Job::new();
        job.read(AISLE)?;
        let mut search = Search::new(rt.alloc(), fleet_of(&job), SharedCell)?;
        search.open(&job)?;
        Ok(search)
    }

    // A search that has solved it.
    fn solved(rt: &HostRuntime) -> Result<Search<JobFleet, SharedCell>, Fail> {
        let mut search = opened(rt)?;
        search.advance(2)?;
        Ok(search)
    }

    fn numbers(name: u16, run: u16, instant: u8) -> SlipNumbers {
        SlipNumbers {
            name,
            run,
            instant,
            last: 2,
        }
    }

    // The slip one instant later.
    fn later(rt: &impl Abort, slip: Slip) -> Slip {
        match slip.onward() {
            Ok(slip) => slip,
            Err(_) => panic!(rt; "the slip is at its last instant"),
        }
    }

    // The slip that a call hands back for this cause.
    fn handed_back<T>(rt: &impl Abort, handed: Result<T, Returned>, cause: Cause) -> Slip {
        match handed {
            Ok(_) => panic!(rt; "the slip was not handed back"),
            Err(Returned { fault, slip }) => {
                assert_eq!(rt; fault, cause.into());
                slip
            }
        }
    }

    // The slip is taken.
    fn taken(rt: &impl Abort, handed: Result<(), Returned>) {
        if handed.is_err() {
            panic!(rt; "the slip was handed back");
        }
    }

    // The slip that is given.
    fn released(rt: &impl Abort, given: Result<Slip, Fault>) -> Slip {
        match given {
            Ok(slip) => slip,
            Err(_) => panic!(rt; "no slip was given"),
        }
    }

    // No slip is given, for this cause.
    fn refused(rt: &impl Abort, given: Result<Slip, Fault>, cause: Cause) {
        match given {
            Ok(_) => panic!(rt; "a slip was given"),
            Err(fault) => assert_eq!(rt; fault, cause.into()),
        }
    }

    #[test]
    fn a_run_goes_on_to_its_end_and_is_finished(rt: HostRuntime) -> Result<(), Fail> {
        let search = solved(&rt)?;
        let mut deck = Deck::new(7);
        let slip = deck.release(&search)?;
        assert_eq!(rt; slip.numbers(), numbers(7, 1, 0));
        let slip = later(&rt, slip);
        let slip = handed_back(&rt, deck.finish(slip), Cause::WrongInstant);
        assert_eq!(rt; slip.numbers(), numbers(7, 1, 1));
        let slip = later(&rt, slip);
        let slip = handed_back(&rt, slip.onward(), Cause::WrongInstant);
        assert_eq!(rt; slip.numbers(), numbers(7, 1, 2));
        taken(&rt, deck.finish(slip));
        Ok(())
    }

    #[test]
    fn a_run_is_recalled_at_any_instant_and_the_next_has_the_next_number(
        rt: HostRuntime,
    ) -> Result<(), Fail> {
        let search = solved(&rt)?;
        let mut deck = Deck::new(0);
        let slip = deck.release(&search)?;
        taken(&rt, deck.recall(slip));
        let slip = deck.release(&search)?;
        assert_eq!(rt; slip.numbers(), numbers(0, 2, 0));
        taken(&rt, deck.recall(later(&rt, slip)));
        Ok(())
    }

    #[test]
    fn a_release_looks_at_the_search_and_then_at_the_deck(rt: HostRuntime) -> Result<(), Fail> {
        let mut deck = Deck::new(0);
        let working = opened(&rt)?;
        refused(&rt, deck.release(&working), Cause::NotSolved);
        let search = solved(&rt)?;
        let slip = deck.release(&search)?;
        refused(&rt, deck.release(&working), Cause::NotSolved);
        refused(&rt, deck.release(&search), Cause::DeckNotFree);
        taken(&rt, deck.recall(slip));
        Ok(())
    }

    #[test]
    fn a_slip_fits_its_deck_and_run_before_its_instant_is_looked_at(
        rt: HostRuntime,
    ) -> Result<(), Fail> {
        let search = solved(&rt)?;
        let (mut deck, mut other, mut namesake) = (Deck::new(7), Deck::new(8), Deck::new(7));
        let slip = other.release(&search)?;
        let slip = handed_back(&rt, deck.finish(slip), Cause::SlipNotOfRun);
        let first = released(&rt, deck.release(&search));
        let slip = handed_back(&rt, deck.finish(slip), Cause::SlipNotOfRun);
        let slip = handed_back(&rt, deck.recall(slip), Cause::SlipNotOfRun);
        assert_eq!(rt; slip.numbers(), numbers(8, 1, 0));
        taken(&rt, other.recall(slip));
        taken(&rt, deck.recall(first));
        let second = deck.release(&search)?;
        let early = released(&rt, namesake.release(&search));
        let early = handed_back(&rt, deck.finish(early), Cause::SlipNotOfRun);
        taken(&rt, namesake.recall(early));
        let second = handed_back(&rt, deck.finish(second), Cause::WrongInstant);
        taken(&rt, deck.recall(second));
        Ok(())
    }

    #[test]
    fn a_deck_has_65535_runs(rt: HostRuntime) -> Result<(), Fail> {
        let search = solved(&rt)?;
        let mut deck = Deck::new(0);
        for run in 1..=65535 {
            let slip = deck.release(&search)?;
            assert_eq!(rt; slip.numbers().run, run);
            taken(&rt, deck.recall(slip));
        }
        refused(&rt, deck.release(&search), Cause::DeckNotFree);
        Ok(())
    }

    #[test]
    fn a_list_of_calls_is_answered_one_by_one(rt: HostRuntime) -> Result<(), Fail> {
        let search = solved(&rt)?;
        let mut deck = Deck::new(0);
        let calls = [
            Call::Recall,
            Call::Release,
            Call::Release,
            Call::Finish,
            Call::Onward,
            Call::Onward,
            Call::Finish,
            Call::Onward,
            Call::Release,
        ];
        let mut answers = [None; 9];
        assert_eq!(rt; deck.run(&search, &calls, &mut answers), Ok(()));
        let early = Some(Err(Cause::WrongInstant.into()));
        assert_eq!(rt; answers[0], None);
        assert_eq!(rt; answers[1], Some(Ok(Done::Released(numbers(0, 1, 0)))));
        assert_eq!(rt; answers[2], Some(Err(Cause::DeckNotFree.into())));
        assert_eq!(rt; answers[3], early);
        assert_eq!(rt; answers[4], Some(Ok(Done::Moved(numbers(0, 1, 1)))));
        assert_eq!(rt; answers[5], Some(Ok(Done::Moved(numbers(0, 1, 2)))));
        assert_eq!(rt; answers[6], Some(Ok(Done::Finished(numbers(0, 1, 2)))));
        assert_eq!(rt; answers[7], None);
        assert_eq!(rt; answers[8], Some(Ok(Done::Released(numbers(0, 2, 0)))));
        let slip = deck.release(&search)?;
        assert_eq!(rt; slip.numbers().run, 3);
        taken(&rt, deck.recall(slip));
        Ok(())
    }
}
