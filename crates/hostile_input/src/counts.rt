// How many strings of bytes were read, and how many were refused for each cause.
use crate::probe::{Difference, Outcome};
use fault::cause::Cause;
use std::io;

// How often a cause was told.
#[derive(Clone, Copy)]
struct Refusals {
    cause: Cause,
    count: u32,
}

#[derive(Clone, Copy)]
pub struct Counts {
    pub read: u32,
    refusals: [Refusals; 7],
    differences: u32,
}

const fn none_for(cause: Cause) -> Refusals {
    Refusals { cause, count: 0 }
}

impl Counts {
    pub fn new() -> Counts {
        Counts {
            read: 0,
            refusals: [
                none_for(Cause::EndsInsideField),
                none_for(Cause::TagNotDue),
                none_for(Cause::WrongLength),
                none_for(Cause::ValueOutsideLimits),
                none_for(Cause::OffsetTooFar),
                none_for(Cause::SledCount),
                none_for(Cause::BytesAfterEnd),
            ],
            differences: 0,
        }
    }

    // Counts what became of a string, and prints a difference.
    pub fn add(&mut self, rt: &impl Print, outcome: Result<Outcome, Difference>) -> io::Result<()> {
        match outcome {
            Ok(Outcome::Read) => add_one(&mut self.read),
            Ok(Outcome::Refused(cause)) => self.add_refusal(cause),
            Err(difference) => {
                add_one(&mut self.differences);
                println!(rt; "difference: {difference:?}")?;
            }
        }
        Ok(())
    }

    fn add_refusal(&mut self, cause: Cause) {
        for refusals in self.refusals.iter_mut() {
            if refusals.cause == cause {
                add_one(&mut refusals.count);
            }
        }
    }

    // What the strings are, how many were read and refused, the refusals by their numbers, and the differences.
    pub fn show(&self, rt: &impl Print, what: &str) -> io::Result<()> {
        print!(rt; "{what}: {} read", self.read)?;
        for refusals in self.refusals.iter().filter(|refusals| refusals.count > 0) {
            print!(rt;
                ", {} refused ({})",
                refusals.count,
                u8::from(refusals.cause)
            )?;
        }
        println!(rt; ", {} differences", self.differences)
    }
}

fn add_one(count: &mut u32) {
    *count = count.saturating_add(1);
}
