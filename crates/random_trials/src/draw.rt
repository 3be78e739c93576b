// Random small jobs.
use crate::case::{Case, Floor, Form, Shape, Sled, Spot};
use std::alloc::{AllocError, Global};
use trial_tools::dice::Dice;

// How large jobs are drawn, and that one sled in so many has a skirt.
#[derive(Clone, Copy)]
pub struct Size {
    pub least_side: u8,
    pub most_side: u8,
    pub most_sleds: u8,
    pub skirted: u32,
}

pub const SMALL: Size = Size {
    least_side: 1,
    most_side: 4,
    most_sleds: 3,
    skirted: 8,
};

// Wide enough for skirts of 2 and 3.
pub const WIDE: Size = Size {
    least_side: 5,
    most_side: 8,
    most_sleds: 2,
    skirted: 2,
};

const MOST_STEPS: u8 = 6;

// How often a form that can stand nowhere, or a place that is taken, is drawn again.
const TRIES: u8 = 8;

pub fn draw_case(alloc: Global, dice: &mut Dice, size: Size) -> Result<Case, AllocError> {
    let floor = draw_floor(alloc, dice, size)?;
    let horizon = draw_high(dice, 1, MOST_STEPS);
    let limit = draw_limit(dice);
    let count = draw_high(dice, 1, size.most_sleds);
    let rectangles = dice.up_to(count);
    let mut taken = Taken {
        starts: Vec::new(alloc),
        goals: Vec::new(alloc),
    };
    let mut sleds = Vec::new(alloc);
    for number in 0..count {
        let kind = if number < rectangles {
            Kind::Rectangle
        } else {
            Kind::Drawing
        };
        let form = draw_form(alloc, dice, size, &floor, kind)?;
        sleds.push(draw_sled(alloc, dice, &floor, form, &mut taken)?)?;
    }
    Ok(Case {
        horizon,
        limit,
        floor,
        sleds,
    })
}

// The higher of two numbers from the least to the most: short horizons, few sleds and narrow floors seldom make a conflict.
fn draw_high(dice: &mut Dice, least: u8, most: u8) -> u8 {
    dice.between(least, most).max(dice.between(least, most))
}

// One cell in eight is a pillar.
fn draw_floor(alloc: Global, dice: &mut Dice, size: Size) -> Result<Floor, AllocError> {
    let mut floor = Floor {
        columns: draw_high(dice, size.least_side, size.most_side),
        rows: draw_high(dice, size.least_side, size.most_side),
        pillars: Vec::new(alloc),
    };
    for spot in &floor.spots(alloc)? {
        if dice.is_one_in(8) {
            floor.pillars.push(*spot)?;
        }
    }
    Ok(floor)
}

// One in four is small, so that tables of nodes fill up.
fn draw_limit(dice: &mut Dice) -> u8 {
    let most = if dice.is_one_in(4) { 8 } else { 255 };
    dice.between(1, most)
}

#[derive(Clone, Copy)]
enum Kind {
    Rectangle,
    Drawing,
}

// A form; it is drawn again where it can stand nowhere, but not for ever.
fn draw_form(
    alloc: Global,
    dice: &mut Dice,
    size: Size,
    floor: &Floor,
    kind: Kind,
) -> Result<Form, AllocError> {
    let mut form = draw_any_form(dice, size, kind);
    for _ in 0..TRIES {
        if floor.standing(alloc, form)?.is_empty() {
            form = draw_any_form(dice, size, kind);
        }
    }
    Ok(form)
}

fn draw_any_form(dice: &mut Dice, size: Size, kind: Kind) -> Form {
    let shape = match kind {
        Kind::Rectangle => Shape::Rectangle {
            width: draw_side(dice),
            height: draw_side(dice),
        },
        Kind::Drawing => draw_drawing(dice),
    };
    let skirt = if dice.is_one_in(size.skirted) {
        dice.up_to(3)
    } else {
        0
    };
    Form { shape, skirt }
}

// Mostly 1.
fn draw_side(dice: &mut Dice) -> u8 {
    let most = if dice.is_one_in(4) { 3 } else { 1 };
    dice.between(1, most)
}

// Some of the cells of three rows of three.
fn draw_drawing(dice: &mut Dice) -> Shape {
    let mut rows = [
        draw_row(dice),
        draw_row(dice),
        draw_row(dice),
        0,
        0,
        0,
        0,
        0,
    ];
    if rows == [0; 8] {
        rows = [128, 0, 0, 0, 0, 0, 0, 0];
    }
    Shape::Drawing { rows }
}

fn draw_row(dice: &mut Dice) -> u8 {
    if dice.is_one_in(2) {
        32 * dice.up_to(7)
    } else {
        0
    }
}

// Where earlier sleds begin and end.
#[derive(Drop)]
struct Taken {
    starts: Vec<Spot>,
    goals: Vec<Spot>,
}

// A sled that goes between places where it may stand; one time in twenty, and where there are none, between any places.
fn draw_sled(
    alloc: Global,
    dice: &mut Dice,
    floor: &Floor,
    form: Form,
    taken: &mut Taken,
) -> Result<Sled, AllocError> {
    let mut spots = floor.standing(alloc, form)?;
    if spots.is_empty() || dice.is_one_in(20) {
        spots = floor.spots(alloc)?;
    }
    let start = pick(dice, spots.as_slice(), taken.starts.as_slice());
    let goal = pick(dice, spots.as_slice(), taken.goals.as_slice());
    taken.starts.push(start)?;
    taken.goals.push(goal)?;
    Ok(Sled { form, start, goal })
}

// One of the places; it is drawn again where it is taken, but not for ever.
fn pick(dice: &mut Dice, spots: &[Spot], taken: &[Spot]) -> Spot {
    let mut spot = pick_any(dice, spots);
    for _ in 0..TRIES {
        if taken.contains(&spot) {
            spot = pick_any(dice, spots);
        }
    }
    spot
}

// One of the places; the first of a floor where there are none.
fn pick_any(dice: &mut Dice, spots: &[Spot]) -> Spot {
    let count = u32::try_from(spots.len()).unwrap_or(u32::MAX);
    let number = dice.below(count);
    spots
        .get(number as usize)
        .copied()
        .unwrap_or(Spot { column: 0, row: 0 })
}
