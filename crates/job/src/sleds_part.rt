// The part of a job file after the floor: the sleds, and the end.
ghost use Rattle.std.specs.Prelude.{◌≡◌, ◌≤◌, false, [], length, drop};
ghost use Rattle.job.specs.Jobs.{sleds_told};
ghost use Rattle.job.specs.Reading.{shown};
ghost use Rattle.job.specs.Told.{sleds_of};

use crate::field::{Field, HEADER};
use crate::sled_field::read_sled;
use crate::sleds::{Sleds, no_sleds};
use fault::cause::{Cause, Fault};
use grid::floor::Floor;

// All sleds from a byte on. Nothing may follow the end. By file and place: of a field that moves on, the loop would have to say that its
// rest is what is left of the file.
pub(crate) fn read_sleds(file: &[u8], start: usize, floor: &Floor) -> Result<Sleds, Fault>
    requires { start ≤ length file.now }
    ensures { shown sleds_told result ≡ sleds_of floor.now.columns floor.now.rows start false [] (drop start file.now) }
{
    let mut sleds = no_sleds();
    let mut at = start;
    while let Some(sled) = read_sled(Field::of(file, at), floor, sleds.as_slice())? {
        let Ok(()) = sleds.push(sled) else {
            unreachable()
        };
        at += sled.shape.field_size();
    }
    if file.len() != at + HEADER {
        return Err(Cause::BytesAfterEnd.at(at + HEADER));
    }
    Ok(sleds)
}
