// Puts damaged files of jobs and random strings of bytes before the reader of the job file, and counts what becomes of them.
#![tactic(auto)]

use crate::counts::Counts;
use crate::damage::{try_changes, try_cuts};
use crate::probe::try_bytes;
use crate::strings::{draw_bytes, draw_fields};
use job::job::Job;
use trial_tools::dice::Dice;

mod counts;
mod damage;
mod encode;
mod probe;
mod same;
mod strings;

const SEED: u64 = 2;

const STRINGS: u32 = 20_000;

// A file, and how many of its changes by one byte are files of jobs again, by the limits of its values.
#[derive(Clone, Copy)]
struct Sample {
    name: &'static str,
    file: &'static [u8],
    changes: u32,
}

const SMALLEST: Sample = Sample {
    name: "smallest",
    file: b"H\0\x01\x01N\0\x01\x01F\0\x03\x01\x01.R\0\x07\x01\x01\0\0\0\0\0E\0\0",
    changes: 334,
};

// Two sleds that change ends of an aisle with a bay.
const AISLE: Sample = Sample {
    name: "aisle",
    file: b"H\0\x01\x06N\0\x01\xffF\0\x08\x03\x02...#.#\
        R\0\x07\x01\x01\0\0\0\x02\0R\0\x07\x01\x01\0\x02\0\0\0E\0\0",
    changes: 368,
};

// Six sleds of both kinds, with and without skirts.
const HALL: Sample = Sample {
    name: "hall",
    file: b"H\0\x01\x3fN\0\x01\x80F\0\x11\x05\x03....#.#......#.\
        R\0\x07\x01\x01\x03\0\0\x04\x02R\0\x07\x07\x02\x01\x01\0\0\x02R\0\x07\x08\x08\0\x02\x01\x02\x01\
        D\0\x0d\x80\0\0\0\0\0\0\0\x02\x03\x02\0\0D\0\x0d\x40\x60\x04\0\0\0\0\0\x01\x04\0\x03\x02\
        D\0\x0d\0\0\0\0\0\0\0\x01\0\0\x01\x01\x01E\0\0",
    changes: 3751,
};

fn main(rt: HostRuntime) -> anyhow::Result<()> {
    let mut job = Job::new();
    for sample in [SMALLEST, AISLE, HALL] {
        try_sample(&rt, &mut job, sample)?;
    }
    try_strings(&rt, &mut job)
}

// A file as it is, and with every damage.
fn try_sample(rt: &HostRuntime, job: &mut Job, sample: Sample) -> anyhow::Result<()> {
    println!(rt; "{}, {} bytes", sample.name, sample.file.len())?;
    let mut whole = Counts::new();
    whole.add(rt, try_bytes(rt.alloc(), job, sample.file))?;
    whole.show(rt, "as it is")?;
    let changed = try_changes(rt, job, sample.file)?;
    changed.show(rt, "one byte changed")?;
    if changed.read != sample.changes {
        println!(rt; "difference: {} should be read", sample.changes)?;
    }
    try_cuts(rt, job, sample.file)?.show(rt, "cut short")?;
    Ok(())
}

// So many random strings of each kind.
fn try_strings(rt: &HostRuntime, job: &mut Job) -> anyhow::Result<()> {
    let mut dice = Dice::new(SEED);
    let mut bytes = Counts::new();
    let mut fields = Counts::new();
    for _ in 0..STRINGS {
        let string = draw_bytes(rt.alloc(), &mut dice)?;
        bytes.add(rt, try_bytes(rt.alloc(), job, string.as_slice()))?;
        let string = draw_fields(rt.alloc(), &mut dice)?;
        fields.add(rt, try_bytes(rt.alloc(), job, string.as_slice()))?;
    }
    println!(rt; "{STRINGS} random strings of each kind")?;
    bytes.show(rt, "any bytes")?;
    fields.show(rt, "fields")?;
    Ok(())
}
