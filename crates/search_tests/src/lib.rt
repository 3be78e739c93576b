// Calls of a search in every state, and what they answer.
#![tactic(auto)]

#[cfg(test)]
mod tests {
    use fault::cause::Cause;
    use job::job::Job;
    use search::Search;
    use search::verdict::Verdict;
    use split::shared_cell::SharedCell;
    use standard::fleet_of;
    use std::process::Abort;
    use std::test::Fail;

    // Two sleds that change ends of an aisle of three cells in two steps; a node limit of 3, and of 2.
    const ENDS: &[u8; 39] =
        b"H\0\x01\x02N\0\x01\x03F\0\x05\x03\x01...R\0\x07\x01\x01\0\0\0\x02\0R\0\x07\x01\x01\0\x02\0\0\0E\0\0";

    const FULL: &[u8; 39] =
        b"H\0\x01\x02N\0\x01\x02F\0\x05\x03\x01...R\0\x07\x01\x01\0\0\0\x02\0R\0\x07\x01\x01\0\x02\0\0\0E\0\0";

    // The same in six steps, with a bay under the middle cell and a node limit of 255.
    const BAY: &[u8; 42] =
        b"H\0\x01\x06N\0\x01\xffF\0\x08\x03\x02...#.#R\0\x07\x01\x01\0\0\0\x02\0R\0\x07\x01\x01\0\x02\0\0\0E\0\0";

    fn job_of(rt: &impl Abort, file: &[u8]) -> Job {
        let mut job = Job::new();
        assert_eq!(rt; job.read(file), Ok(()));
        job
    }

    #[test]
    fn each_call_fits_the_state(rt: HostRuntime) -> Result<(), Fail> {
        let job = job_of(&rt, ENDS);
        let mut search = Search::new(rt.alloc(), fleet_of(&job), SharedCell)?;
        assert_eq!(rt; search.verdict(), Verdict::Idle);
        assert_eq!(rt; search.advance(1), Err(Cause::WrongState.into()));
        assert_eq!(rt; search.bound(), Err(Cause::WrongState.into()));
        assert_eq!(rt; search.open(&job), Ok(()));
        assert_eq!(rt; search.open(&job), Err(Cause::SearchNotIdle.into()));
        assert_eq!(rt; search.advance(0), Err(Cause::NoTurns.into()));
        assert_eq!(rt; search.bound(), Ok(Some(4)));
        assert_eq!(rt; search.advance(1), Ok(1));
        assert_eq!(rt; search.bound(), Ok(None));
        assert_eq!(rt; search.verdict(), Verdict::Working);
        assert_eq!(rt; search.advance(9), Ok(1));
        assert_eq!(rt; search.verdict(), Verdict::NoPlan);
        assert_eq!(rt; search.advance(1), Err(Cause::WrongState.into()));
        search.clear();
        assert_eq!(rt; search.verdict(), Verdict::Idle);
        Ok(())
    }

    #[test]
    fn a_table_too_small_is_full_at_the_first_turn(rt: HostRuntime) -> Result<(), Fail> {
        let job = job_of(&rt, FULL);
        let mut search = Search::new(rt.alloc(), fleet_of(&job), SharedCell)?;
        assert_eq!(rt; search.open(&job), Ok(()));
        assert_eq!(rt; search.advance(9), Ok(1));
        assert_eq!(rt; search.verdict(), Verdict::Full);
        assert_eq!(rt; search.bound(), Ok(Some(4)));
        Ok(())
    }

    #[test]
    fn advance_in_pieces_is_advance_at_once(rt: HostRuntime) -> Result<(), Fail> {
        let job = job_of(&rt, BAY);
        let mut once = Search::new(rt.alloc(), fleet_of(&job), SharedCell)?;
        let mut pieces = Search::new(rt.alloc(), fleet_of(&job), SharedCell)?;
        assert_eq!(rt; once.open(&job), Ok(()));
        assert_eq!(rt; pieces.open(&job), Ok(()));
        assert_eq!(rt; once.advance(256), Ok(130));
        let mut made: u32 = 0;
        for count in 1..20 {
            made = made.saturating_add(pieces.advance(count).unwrap_or(0));
        }
        assert_eq!(rt; made, 130);
        assert_eq!(rt; pieces.verdict(), Verdict::Solved);
        assert_eq!(rt; pieces.bound(), once.bound());
        Ok(())
    }
}
