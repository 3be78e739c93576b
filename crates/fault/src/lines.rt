// Lines that tell something, written into a caller's buffer.
ghost use Rattle.std.specs.Prelude.{◌≡◌, ℕ, List, ◌≤◌, length};
ghost use Rattle.text.specs.Texts.{Appends};
ghost use Rattle.fault.specs.Lines.{Writes, WritesInto, least_buffer};

use crate::cause::{Cause, Fault};
use text::Text;

// The smallest buffer that takes all `Lines`.
pub const LINES_BUFFER: usize = 4096;

// What is told by lines that fit a buffer of `LINES_BUFFER` bytes.
pub trait Lines {
    ghost lines: { Self → List ℕ };

    fn put(&self, text: &mut Text)
        ensures text { Appends text.old (lines self.now) text.new }
        ensures short { length (lines self.now) ≤ least_buffer };
}

// Lines whose kind tells the length of its own smallest buffer.
pub trait MeasuredLines {
    ghost lines: { Self → List ℕ };

    ghost least: { ℕ };

    // The length of the smallest buffer that takes the lines.
    fn least() -> usize
        ensures { result ≡ least };

    fn put_measured(&self, text: &mut Text)
        ensures text { Appends text.old (lines self.now) text.new }
        ensures short { length (lines self.now) ≤ least };
}

// Any `Lines` as measured ones, whose smallest buffer is `LINES_BUFFER`.
#[derive(Drop)]
struct Measured<'a, L>(&'a L);

impl<L: Lines> MeasuredLines for Measured<'_, L> {
    ghost lines = { λ m. L.lines m.0.now };

    ghost least = { least_buffer };

    fn least() -> usize {
        LINES_BUFFER
    }

    fn put_measured(&self, text: &mut Text) {
        self.0.put(text);
    }
}

// Writes the lines from the front of the buffer, and answers their length.
pub fn write_lines<L: Lines>(told: &L, out: &mut [u8]) -> Result<usize, Fault>
    ensures { Writes (L.lines told.now) out.old out.new result }
{
    write_measured_lines(&Measured(told), out)
}

// The same of measured lines, whose kind tells the smallest buffer.
pub fn write_measured_lines<L: MeasuredLines>(told: &L, out: &mut [u8]) -> Result<usize, Fault>
    ensures { WritesInto L.least (L.lines told.now) out.old out.new result }
{
    if out.len() < L::least() {
        return Err(Cause::BufferTooShort.into());
    }
    let mut text = Text::new(out);
    told.put_measured(&mut text);
    let Some(length) = text.length() else {
        unreachable()
    };
    Ok(length)
}
