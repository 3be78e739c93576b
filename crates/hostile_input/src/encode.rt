// The bytes of the file of a job.
use grid::cell::Cell;
use grid::floor::Floor;
use job::job::Job;
use job::shape::Shape;
use job::sled::Sled;
use std::alloc::{AllocError, Global};
use trial_tools::field::put_field;

pub fn file_of(alloc: Global, job: &Job) -> Result<Vec<u8>, AllocError> {
    let mut file = Vec::new(alloc);
    put_field(&mut file, b'H', &[job.horizon()])?;
    put_field(&mut file, b'N', &[u8::try_from(job.limit()).unwrap_or(0)])?;
    let floor = floor_value(alloc, &job.floor())?;
    put_field(&mut file, b'F', floor.as_slice())?;
    for sled in job.sleds() {
        put_sled(alloc, &mut file, sled)?;
    }
    put_field(&mut file, b'E', &[])?;
    Ok(file)
}

fn floor_value(alloc: Global, floor: &Floor) -> Result<Vec<u8>, AllocError> {
    let mut value = vec![in alloc; floor.columns(), floor.rows()]?;
    for cell in floor.cells() {
        value.push(match cell {
            Cell::Free => b'.',
            Cell::Pillar => b'#',
        })?;
    }
    Ok(value)
}

fn put_sled(alloc: Global, file: &mut Vec<u8>, sled: &Sled) -> Result<(), AllocError> {
    let (tag, mut value) = match sled.shape {
        Shape::Rectangle { width, height } => (b'R', vec![in alloc; width, height]?),
        Shape::Drawing { rows } => (b'D', Vec::from_array(alloc, rows)?),
    };
    value.extend_from_slice(&[sled.skirt, sled.start.column, sled.start.row])?;
    value.extend_from_slice(&[sled.goal.column, sled.goal.row])?;
    put_field(file, tag, value.as_slice())
}
