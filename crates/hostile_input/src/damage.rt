// The file of a job with one byte changed, and cut short.
use crate::counts::Counts;
use crate::probe::try_bytes;
use job::job::Job;

// Each byte in turn becomes each other value.
pub fn try_changes(rt: &HostRuntime, job: &mut Job, file: &[u8]) -> anyhow::Result<Counts> {
    let mut counts = Counts::new();
    for (at, byte) in file.iter().enumerate() {
        for value in (0..=255).filter(|value| value != byte) {
            let mut changed = Vec::from_slice(rt.alloc(), &file[..at])?;
            changed.push(value)?;
            changed.extend_from_slice(&file[at + 1..])?;
            counts.add(rt, try_bytes(rt.alloc(), job, changed.as_slice()))?;
        }
    }
    Ok(counts)
}

// Only so many of its bytes, from none to all but one.
pub fn try_cuts(rt: &HostRuntime, job: &mut Job, file: &[u8]) -> anyhow::Result<Counts> {
    let mut counts = Counts::new();
    for length in 0..file.len() {
        counts.add(rt, try_bytes(rt.alloc(), job, &file[..length]))?;
    }
    Ok(counts)
}
