// The smallest job, from its bytes to the lines of its plan.
use crate::difference::Difference;
use fault::refusal::LINES_BUFFER;
use job::job::Job;
use search::Search;
use split::shared_cell::SharedCell;
use standard::fleet_of;
use std::alloc::Global;
use trial_tools::check::check;

const FILE: &[u8; 27] = b"H\0\x01\x01N\0\x01\x01F\0\x03\x01\x01.R\0\x07\x01\x01\0\0\0\0\0E\0\0";

const LINES: &str = "solved 0 1\n0 0,0 0,0\n";

// The lines that should come, if they come.
pub fn try_smallest(alloc: Global) -> Result<&'static str, Difference> {
    let mut job = Job::new();
    job.read(FILE)?;
    let mut search = Search::new(alloc, fleet_of(&job), SharedCell)?;
    search.open(&job)?;
    search.advance(u32::from(job.limit()) + 1)?;
    let mut out = [0; LINES_BUFFER];
    let length = search.print(&mut out)?;
    check(
        out.get(..length) == Some(LINES.as_bytes()),
        Difference::LinesOtherwise,
    )?;
    Ok(LINES)
}
