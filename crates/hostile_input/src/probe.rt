// One string of bytes put before the reader.
use crate::encode::file_of;
use crate::same::is_same;
use fault::cause::{Cause, Fault};
use job::job::Job;
use std::alloc::{AllocError, Global};
use trial_tools::check::check;

// What became of it.
#[derive(Clone, Copy)]
pub enum Outcome {
    Read,
    Refused(Cause),
}

// What the reader does otherwise than it should.
#[derive(Clone, Copy, Debug)]
pub enum Difference {
    RecordChanged,
    NoFaultOfAReader,
    OtherBytes,
    NotReadAgain,
    ReadOtherwise,
    NoMemory,
}

impl From<AllocError> for Difference {
    fn from(_error: AllocError) -> Difference {
        Difference::NoMemory
    }
}

// Reads the bytes into a record that holds a job from before.
pub fn try_bytes(alloc: Global, job: &mut Job, bytes: &[u8]) -> Result<Outcome, Difference> {
    let before = *job;
    match job.read(bytes) {
        Ok(()) => {
            check_read(alloc, job, bytes)?;
            Ok(Outcome::Read)
        }
        Err(fault) => {
            check(is_same(job, &before), Difference::RecordChanged)?;
            check(
                is_of_reader(fault, bytes.len()),
                Difference::NoFaultOfAReader,
            )?;
            Ok(Outcome::Refused(fault.cause))
        }
    }
}

// The job that was read has these very bytes, and they give it again.
fn check_read(alloc: Global, job: &Job, bytes: &[u8]) -> Result<(), Difference> {
    let written = file_of(alloc, job)?;
    check(written.as_slice() == bytes, Difference::OtherBytes)?;
    let mut again = Job::new();
    check(
        again.read(written.as_slice()).is_ok(),
        Difference::NotReadAgain,
    )?;
    check(is_same(job, &again), Difference::ReadOtherwise)
}

// Whether the cause is one of the reader's seven, and the place a byte of the file or its end.
fn is_of_reader(fault: Fault, length: usize) -> bool {
    u8::from(fault.cause) <= 7 && fault.place <= length
}
