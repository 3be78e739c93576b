// Jobs, and the file that a job is read from.
#![tactic(auto)]

mod field;
mod floor_field;
pub mod job;
pub mod shape;
pub mod sled;
mod sled_field;
pub mod sled_value;
mod sleds;
mod sleds_part;
mod value;
