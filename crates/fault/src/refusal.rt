// The line that tells a refusal: by hand, into the caller's memory.
ghost use Rattle.fault.specs.Lines.{Writes, least_buffer, refusal_line};

use crate::cause::Fault;
pub use crate::lines::LINES_BUFFER;
use crate::lines::{Lines, MeasuredLines, write_measured_lines};
use text::Text;

impl MeasuredLines for Fault {
    ghost lines = { refusal_line };

    ghost least = { least_buffer };

    fn least() -> usize {
        LINES_BUFFER
    }

    fn put_measured(&self, text: &mut Text) {
        text.put(b"refused ");
        text.put_number(usize::from(u8::from(self.cause)));
        text.put(b" ");
        text.put_number(usize::from(u8::from(self.cause.layer())));
        text.put(b" ");
        text.put_number(self.place);
        text.put(b"\n");
    }
}

impl Lines for Fault {
    ghost lines = { refusal_line };

    fn put(&self, text: &mut Text) {
        self.put_measured(text);
    }
}

// Writes the line from the front of the buffer, and answers its length.
pub fn write_refusal(fault: Fault, out: &mut [u8]) -> Result<usize, Fault>
    ensures { Writes (refusal_line fault) out.old out.new result }
{
    write_measured_lines(&fault, out)
}
