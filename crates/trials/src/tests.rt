// A skirt over a convoy of rectangles and drawn outlines, asked with plain and with odd numbers.
use fault::cause::{Cause, Fault};
use fleet::Fleet;
use fleet::convoy::Convoy;
use fleet::offset::Offset;
use fleet::outlines::Outlines;
use fleet::rectangles::Rectangles;
use fleet::skirt::Skirt;
use geometry::pair::Pair;
use geometry::sharing::shares_cell;
use grid::moves::Move;
use grid::place::Place;
use std::test::Fail;
use tables::differences::Differences;
use tables::tabled::Tabled;

type Piled = Skirt<Convoy<Rectangles, Outlines>>;

// A sled of 2 by 1 with a skirt of 1, and one drawn cell.
fn two_sleds() -> Result<Piled, Fault> {
    let mut rectangles = Rectangles::new();
    rectangles.add(2, 1)?;
    let mut outlines = Outlines::new();
    outlines.add([128, 0, 0, 0, 0, 0, 0, 0])?;
    let mut fleet = Skirt::new(Convoy::new(rectangles, outlines));
    fleet.set_skirt(0, 1)?;
    Ok(fleet)
}

// Whether a sled has the offset of so many cells across and down.
fn has<F: Fleet>(fleet: &F, sled: u8, dx: i8, dy: i8) -> bool {
    fleet.has(sled, Offset { dx, dy })
}

#[test]
fn a_pile_of_fleets_is_a_fleet(rt: HostRuntime) -> Result<(), Fail> {
    let fleet = two_sleds()?;
    assert!(rt; fleet.count() == 2);
    assert!(rt; has(&fleet, 0, -1, -1) && has(&fleet, 0, 2, 1) && !has(&fleet, 0, 3, 1));
    assert!(rt; has(&fleet, 1, 0, 0) && !has(&fleet, 1, 1, 0));
    Ok(())
}

#[test]
fn odd_numbers_get_the_answer_no(rt: HostRuntime) -> Result<(), Fail> {
    let fleet = two_sleds()?;
    assert!(rt; !has(&fleet, 255, 0, 0) && !has(&fleet, 0, -128, 0) && !has(&fleet, 0, 127, 127));
    let tabled = Tabled::of(&fleet);
    assert!(rt;
        !has(&tabled, 255, 0, 0) && !has(&tabled, 0, -128, 0) && !has(&tabled, 0, 127, 127)
    );
    Ok(())
}

#[test]
fn refusals_leave_the_fleet(rt: HostRuntime) -> Result<(), Fail> {
    let mut fleet = two_sleds()?;
    assert!(rt; fleet.set_skirt(255, 0).is_err() && fleet.set_skirt(0, 4).is_err());
    assert!(rt; has(&fleet, 0, 2, 1) && !has(&fleet, 0, 3, 1));
    Ok(())
}

#[test]
fn tables_answer_as_the_scan(rt: HostRuntime) -> Result<(), Fail> {
    let fleet = two_sleds()?;
    let tabled = Tabled::of(&fleet);
    let differences = Differences::of(&tabled, 0, 1);
    let u = Place::from(0);
    for number in 0..=255 {
        let v = Place::from(number);
        let pair = Pair { i: 0, j: 1, u, v };
        assert!(rt; differences.shares_cell(u, v) == shares_cell(&fleet, pair));
    }
    assert!(rt; differences.collides(u, Move::East, Place::from(3), Move::West));
    Ok(())
}
