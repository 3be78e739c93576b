// The lines of a solved search, as they should read.
use crate::case::Spot;
use crate::told::Told;
use std::alloc::{AllocError, Global};
use std::fmt;

impl fmt::Display for Spot {
    fn fmt<W: fmt::Write>(&self, f: &mut fmt::Formatter<W>) -> fmt::Result {
        write!(f, "{},{}", self.column, self.row)
    }
}

pub fn lines_of(alloc: Global, sum: u16, turns: u32, plan: &[Told]) -> Result<String, AllocError> {
    let mut lines = format!(in alloc; "solved {sum} {turns}\n")?;
    for (number, told) in plan.iter().enumerate() {
        write!(lines, "{number}")?;
        for spot in &told.route {
            write!(lines, " {spot}")?;
        }
        lines.push_str("\n")?;
    }
    Ok(lines)
}
