// Route counts and the rows that they use.
use grid::place::BOARD_PLACES;
use std::test::Fail;
use walk::count::Count;
use walk::errand::Errand;
use walk::horizon::Horizon;
use walk::standing::Standing;
use walk::tally::count_routes;

const SEVEN: Count = Count { value: 7 };

#[test]
fn a_count_stops_at_65535(rt: HostRuntime) -> Result<(), Fail> {
    let sled = Standing::open(16, 16);
    let mut row = [SEVEN; BOARD_PLACES];
    let mut spare = [SEVEN; BOARD_PLACES];
    let count = count_routes(
        &sled,
        Errand {
            start: 0,
            goal: 255,
            horizon: Horizon { steps: 63 },
        },
        &mut row,
        &mut spare,
    )?;
    assert_eq!(rt; count, 65535);
    Ok(())
}

#[test]
fn longer_rows_keep_what_stands_past_256(rt: HostRuntime) -> Result<(), Fail> {
    let sled = Standing::open(2, 2);
    let mut row = [SEVEN; 258];
    let mut spare = [SEVEN; 257];
    let count = count_routes(
        &sled,
        Errand {
            start: 0,
            goal: 17,
            horizon: Horizon { steps: 2 },
        },
        &mut row,
        &mut spare,
    )?;
    assert_eq!(rt; count, 2);
    assert!(rt; row[0].value == 0 && row[255].value == 0 && spare[255].value == 0);
    assert!(rt; row[256].value == 7 && row[257].value == 7 && spare[256].value == 7);
    Ok(())
}

#[test]
fn short_rows_are_refused_and_kept(rt: HostRuntime) -> Result<(), Fail> {
    let sled = Standing::open(2, 2);
    let mut row = [SEVEN; BOARD_PLACES];
    let mut spare = [SEVEN; 255];
    let Err(fault) = count_routes(
        &sled,
        Errand {
            start: 0,
            goal: 17,
            horizon: Horizon { steps: 2 },
        },
        &mut row,
        &mut spare,
    ) else {
        return Err(Fail::new("not refused"));
    };
    assert_eq!(rt; u8::from(fault.cause), 16);
    assert!(rt; row[0].value == 7 && spare[254].value == 7);
    Ok(())
}
