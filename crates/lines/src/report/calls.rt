// Writing the lines of a report into a buffer.
ghost use Rattle.std.specs.Prelude.{◌≡◌, ◌≤◌, length};
ghost use Rattle.text.specs.Texts.{Appends};
ghost use Rattle.fault.specs.Lines.{Writes, least_buffer};
ghost use Rattle.lines.specs.Reports.{plan_lines, report_lines};

use crate::outcome::{Outcome, put_outcome};
use crate::report::Report;
use crate::route::put_route;
use fault::cause::Fault;
use fault::lines::{LINES_BUFFER, Lines, MeasuredLines, write_measured_lines};
use text::Text;

// Writes the lines from the front of the buffer, and answers their length.
pub fn write_report(report: &Report, out: &mut [u8]) -> Result<usize, Fault>
    ensures { Writes (report_lines report.now) out.old out.new result }
{
    write_measured_lines(report, out)
}

impl MeasuredLines for Report<'_> {
    ghost lines = { report_lines };

    ghost least = { least_buffer };

    fn least() -> usize
        ensures { result ≡ least_buffer }
    {
        LINES_BUFFER
    }

    fn put_measured(&self, text: &mut Text) {
        put_outcome(text, self.outcome, self.turns);
        if let Outcome::Solved { .. } = self.outcome {
            put_plan(text, self);
        }
    }
}

impl Lines for Report<'_> {
    ghost lines = { report_lines };

    fn put(&self, text: &mut Text) {
        self.put_measured(text);
    }
}

// A line for each sled.
fn put_plan(text: &mut Text, report: &Report)
    ensures text { Appends text.old (plan_lines report.now.routes.now report.now.last (length report.now.routes.now)) text.new }
    ensures short { length (plan_lines report.now.routes.now report.now.last (length report.now.routes.now)) ≤ 2436 }
{
    let last = usize::from(report.last);
    for (sled, route) in report.routes.iter().enumerate() {
        put_route(text, sled, &route[..=last]);
    }
}
