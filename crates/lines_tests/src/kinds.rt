// Lines of each kind, written into the smallest buffer and into one that is too short.
ghost use Rattle.std.specs.Prelude.{codes};

use fault::cause::Cause;
use fault::lines::{LINES_BUFFER, Lines, MeasuredLines, write_lines, write_measured_lines};
use lines::outcome::Outcome;
use lines::report::{MAX_INSTANTS, Report};
use std::process::Abort;
use std::test::Fail;
use text::Text;

// Lines that need not tell a length.
struct Heading;

impl Lines for Heading {
    ghost lines = { λ _. codes "plan\n" };

    fn put(&self, text: &mut Text) {
        text.put(b"plan\n");
    }
}

// Lines that need five bytes.
struct ShortHeading;

impl MeasuredLines for ShortHeading {
    ghost lines = { λ _. codes "plan\n" };

    ghost least = { 5 };

    fn least() -> usize {
        5
    }

    fn put_measured(&self, text: &mut Text) {
        text.put(b"plan\n");
    }
}

// Sees that the smallest buffer takes the lines at its front and stays as it was behind them, and that one byte less is refused and stays as it was.
fn are_told<L: Lines>(rt: &impl Abort, told: &L, want: &[u8]) -> Result<(), Fail> {
    let mut out = [b'.'; LINES_BUFFER];
    let length = write_lines(told, &mut out)?;
    assert_eq!(rt; &out[..length], want);
    assert!(rt; out[length..].iter().all(|&byte| byte == b'.'));
    let mut short = [b'.'; LINES_BUFFER - 1];
    assert_eq!(rt;
        write_lines(told, &mut short),
        Err(Cause::BufferTooShort.at(0))
    );
    assert!(rt; short.iter().all(|&byte| byte == b'.'));
    Ok(())
}

#[test]
fn every_kind_of_lines_is_written_or_refused(rt: HostRuntime) -> Result<(), Fail> {
    let mut route = [0; MAX_INSTANTS];
    route[1] = 1;
    route[2] = 17;
    let report = Report {
        outcome: Outcome::Solved { sum: 2 },
        turns: 1,
        routes: &[route],
        last: 2,
    };
    are_told(&rt, &report, b"solved 2 1\n0 0,0 1,0 1,1\n")?;
    are_told(&rt, &Cause::TagNotDue.at(8), b"refused 2 1 8\n")?;
    are_told(&rt, &Heading, b"plan\n")
}

#[test]
fn measured_lines_fill_a_buffer_of_their_own_length(rt: HostRuntime) {
    let mut out = [b'.'; 5];
    assert_eq!(rt; write_measured_lines(&ShortHeading, &mut out), Ok(5));
    assert_eq!(rt; out, *b"plan\n");
    let mut short = [b'.'; 4];
    assert_eq!(rt;
        write_measured_lines(&ShortHeading, &mut short),
        Err(Cause::BufferTooShort.at(0))
    );
    assert_eq!(rt; short, [b'.'; 4]);
}
