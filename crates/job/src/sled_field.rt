// The fields after the floor: a rectangular sled, a drawn sled, or the end.
ghost use Rattle.std.specs.Prelude.{◌≡◌, ◌≤◌, length, map, option_map, Some};
ghost use Rattle.job.specs.Jobs.{ends_drawn, values_of};
ghost use Rattle.job.specs.Reading.{due_entry, entry_of, entry_size, placed_of, rectangle_of, drawing_of, within_limits, sled_of, shown};

use crate::field::{Field, HEADER};
use crate::shape::Shape;
use crate::sled::{MAX_SLEDS, Sled};
use crate::sled_value::SledValue;
use crate::sleds::ends_drawn;
use crate::value::{Sides, Value};
use fault::cause::{Cause, Fault};
use grid::floor::Floor;
use grid::position::Position;

#[derive(Clone, Copy, PartialEq)]
pub(crate) enum Entry {
    Rectangle,
    Drawing,
    End,
}

impl Entry {
    // The entry with a tag; a rectangle is not due once something is drawn.
    fn due(tag: u8, drawn: bool) -> Option<Entry>
        ensures { result ≡ due_entry drawn tag }
    {
        match tag {
            b'R' if !drawn => Some(Entry::Rectangle),
            b'D' => Some(Entry::Drawing),
            b'E' => Some(Entry::End),
            _ => None,
        }
    }

    // The length of its value.
    fn size(self) -> u16
        ensures { result ≡ entry_size self }
    {
        match self {
            Entry::Rectangle => 7,
            Entry::Drawing => 13,
            Entry::End => 0,
        }
    }
}

// Which field stands here, after these sleds.
fn read_entry(field: Field, sleds: &[Sled]) -> Result<Entry, Fault>
    ensures { result ≡ entry_of (length sleds.now) (ends_drawn (map values_of sleds.now)) field.entry.at field.entry.rest.now }
{
    let header = field.header()?;
    let due = Entry::due(header.tag, ends_drawn(sleds));
    let entry = due.ok_or(field.refused(Cause::TagNotDue))?;
    let is_end = entry == Entry::End;
    if !is_end && sleds.len() >= MAX_SLEDS {
        return Err(field.refused(Cause::SledCount));
    }
    if header.size != entry.size() {
        return Err(field.refused(Cause::WrongLength));
    }
    if is_end && sleds.is_empty() {
        return Err(field.refused(Cause::SledCount));
    }
    if field.rest.len() < HEADER + usize::from(entry.size()) {
        return Err(field.refused(Cause::EndsInsideField));
    }
    Ok(entry)
}

// A sled of a shape, by its skirt, start and goal. By number: a slice pattern needs an arm for a length that the caller has ruled out.
fn placed(shape: Shape, tail: &[u8]) -> SledValue
    requires { 5 ≤ length tail.now }
    ensures { result ≡ placed_of shape tail.now }
{
    SledValue {
        shape,
        skirt: tail[0],
        start: Position {
            column: tail[1],
            row: tail[2],
        },
        goal: Position {
            column: tail[3],
            row: tail[4],
        },
    }
}

fn rectangle(value: &[u8]) -> SledValue
    requires { 7 ≤ length value.now }
    ensures { result ≡ rectangle_of value.now }
{
    let shape = Shape::Rectangle {
        width: value[0],
        height: value[1],
    };
    placed(shape, &value[2..])
}

fn drawing(value: &[u8]) -> SledValue
    requires { 13 ≤ length value.now }
    ensures { result ≡ drawing_of value.now }
{
    let mut rows = [0; 8];
    rows.copy_from_slice(&value[0..8]);
    placed(Shape::Drawing { rows }, &value[8..])
}

// The sled, once its values are within their limits.
fn within_limits(field: Field, value: SledValue, floor: &Floor) -> Result<Sled, Fault>
    ensures { shown (λ sled. Some (values_of sled)) result ≡ within_limits floor.now.columns floor.now.rows field.entry.at value }
{
    let sides = Sides {
        columns: floor.columns(),
        rows: floor.rows(),
    };
    field.check(Value::Placed(value, sides))?;
    let Some(sled) = value.sled() else {
        unreachable()
    };
    Ok(sled)
}

// The next sled after these, or nothing at the end.
pub(crate) fn read_sled(field: Field, floor: &Floor, sleds: &[Sled]) -> Result<Option<Sled>, Fault>
    ensures { shown (option_map values_of) result ≡ sled_of floor.now.columns floor.now.rows (length sleds.now) (ends_drawn (map values_of sleds.now)) field.entry.at field.entry.rest.now }
{
    let value = match read_entry(field, sleds)? {
        Entry::Rectangle => rectangle(&field.rest[HEADER..]),
        Entry::Drawing => drawing(&field.rest[HEADER..]),
        Entry::End => return Ok(None),
    };
    within_limits(field, value, floor).map(Some)
}
