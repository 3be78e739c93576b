// The bytes of a job file.
use crate::case::{Case, Floor, Shape, Sled, Spot};
use std::alloc::{AllocError, Global};
use trial_tools::field::put_field;

pub fn file_of(alloc: Global, case: &Case) -> Result<Vec<u8>, AllocError> {
    let mut file = Vec::new(alloc);
    put_field(&mut file, b'H', &[case.horizon])?;
    put_field(&mut file, b'N', &[case.limit])?;
    let floor = floor_value(alloc, &case.floor)?;
    put_field(&mut file, b'F', floor.as_slice())?;
    for sled in &case.sleds {
        put_sled(alloc, &mut file, sled)?;
    }
    put_field(&mut file, b'E', &[])?;
    Ok(file)
}

fn floor_value(alloc: Global, floor: &Floor) -> Result<Vec<u8>, AllocError> {
    let mut value = vec![in alloc; floor.columns, floor.rows]?;
    for spot in &floor.spots(alloc)? {
        let is_pillar = floor.pillars.contains(spot);
        value.push(if is_pillar { b'#' } else { b'.' })?;
    }
    Ok(value)
}

fn put_sled(alloc: Global, file: &mut Vec<u8>, sled: &Sled) -> Result<(), AllocError> {
    let (tag, mut value) = match sled.form.shape {
        Shape::Rectangle { width, height } => (b'R', vec![in alloc; width, height]?),
        Shape::Drawing { rows } => (b'D', Vec::from_array(alloc, rows)?),
    };
    value.push(sled.form.skirt)?;
    value.extend_from_slice(&column_and_row(sled.start))?;
    value.extend_from_slice(&column_and_row(sled.goal))?;
    put_field(file, tag, value.as_slice())
}

fn column_and_row(spot: Spot) -> [u8; 2] {
    [spot.column.unsigned_abs(), spot.row.unsigned_abs()]
}
