// Random strings of bytes: of any bytes, and of fields as a job file has them.
use std::alloc::{AllocError, Global};
use trial_tools::dice::Dice;
use trial_tools::field::put_field;

const LONGEST: u8 = 63;

pub fn draw_bytes(alloc: Global, dice: &mut Dice) -> Result<Vec<u8>, AllocError> {
    let mut bytes = Vec::new(alloc);
    for _ in 0..dice.up_to(LONGEST) {
        bytes.push(dice.up_to(255))?;
    }
    Ok(bytes)
}

const MOST_SIDE: u8 = 5;

// The sides of a floor.
#[derive(Clone, Copy)]
struct Sides {
    columns: u8,
    rows: u8,
}

// Fields in their order; now and then one is left out or stands twice, or has what it should not have.
pub fn draw_fields(alloc: Global, dice: &mut Dice) -> Result<Vec<u8>, AllocError> {
    let sides = Sides {
        columns: dice.between(1, MOST_SIDE),
        rows: dice.between(1, MOST_SIDE),
    };
    let mut file = Vec::new(alloc);
    for tag in &draw_tags(alloc, dice)? {
        let value = draw_value(alloc, dice, *tag, sides)?;
        put_field(&mut file, *tag, value.as_slice())?;
    }
    Ok(file)
}

fn draw_tags(alloc: Global, dice: &mut Dice) -> Result<Vec<u8>, AllocError> {
    let rectangles = dice.up_to(3);
    let drawings = dice.up_to(4);
    let mut tags = Vec::new(alloc);
    put_tags(dice, &mut tags, b'H', 1)?;
    put_tags(dice, &mut tags, b'N', 1)?;
    put_tags(dice, &mut tags, b'F', 1)?;
    put_tags(dice, &mut tags, b'R', rectangles)?;
    put_tags(dice, &mut tags, b'D', drawings)?;
    put_tags(dice, &mut tags, b'E', 1)?;
    Ok(tags)
}

// A tag so many times; now and then once more or once less.
fn put_tags(dice: &mut Dice, tags: &mut Vec<u8>, tag: u8, count: u8) -> Result<(), AllocError> {
    let count = match dice.up_to(39) {
        0 => count.saturating_add(1),
        1 => count.saturating_sub(1),
        _ => count,
    };
    for _ in 0..count {
        tags.push(tag)?;
    }
    Ok(())
}

// What a field may hold; now and then a byte too many.
fn draw_value(
    alloc: Global,
    dice: &mut Dice,
    tag: u8,
    sides: Sides,
) -> Result<Vec<u8>, AllocError> {
    let mut value = Vec::new(alloc);
    match tag {
        b'H' => value.push(draw_number(dice, 1, 63))?,
        b'N' => value.push(draw_number(dice, 1, 255))?,
        b'F' => put_floor(dice, &mut value, sides)?,
        b'R' => put_rectangle(dice, &mut value, sides)?,
        b'D' => put_drawing(dice, &mut value, sides)?,
        _ => {}
    }
    if dice.is_one_in(80) {
        value.push(dice.up_to(255))?;
    }
    Ok(value)
}

// A number within its limits; now and then any byte.
fn draw_number(dice: &mut Dice, least: u8, most: u8) -> u8 {
    if dice.is_one_in(80) {
        dice.up_to(255)
    } else {
        dice.between(least, most)
    }
}

fn put_floor(dice: &mut Dice, value: &mut Vec<u8>, sides: Sides) -> Result<(), AllocError> {
    value.extend_from_slice(&[sides.columns, sides.rows])?;
    for _ in 0..u16::from(sides.columns) * u16::from(sides.rows) {
        value.push(draw_cell(dice))?;
    }
    Ok(())
}

fn draw_cell(dice: &mut Dice) -> u8 {
    if dice.is_one_in(400) {
        return dice.up_to(255);
    }
    if dice.is_one_in(5) { b'#' } else { b'.' }
}

fn put_rectangle(dice: &mut Dice, value: &mut Vec<u8>, sides: Sides) -> Result<(), AllocError> {
    let width = draw_number(dice, 1, 8);
    let height = draw_number(dice, 1, 8);
    value.extend_from_slice(&[width, height])?;
    put_ends(dice, value, sides)
}

fn put_drawing(dice: &mut Dice, value: &mut Vec<u8>, sides: Sides) -> Result<(), AllocError> {
    for _ in 0..8u8 {
        let row = if dice.is_one_in(2) {
            dice.up_to(255)
        } else {
            0
        };
        value.push(row)?;
    }
    put_ends(dice, value, sides)
}

// Mostly no skirt, and a start and a goal on the floor.
fn put_ends(dice: &mut Dice, value: &mut Vec<u8>, sides: Sides) -> Result<(), AllocError> {
    let skirt = if dice.is_one_in(4) { dice.up_to(4) } else { 0 };
    value.push(skirt)?;
    for _ in 0..2u8 {
        value.push(draw_number(dice, 0, sides.columns.saturating_sub(1)))?;
        value.push(draw_number(dice, 0, sides.rows.saturating_sub(1)))?;
    }
    Ok(())
}
