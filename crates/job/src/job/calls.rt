// Making a job, reading one from the bytes of a file, and asking it.
ghost use Rattle.std.specs.Prelude.{◌≡◌, map, length};
ghost use Rattle.job.specs.Facts.{facts, smallest, values_of, Reads, SledIs, EveryJobIsReadBack, OnlyItsOwnFileGivesAJob};
ghost use Rattle.job.specs.Told.{decode};
ghost use Rattle.job.specs.Reading.{shown};

use crate::field::{Field, read_horizon, read_limit};
use crate::floor_field::read_floor;
use crate::job::Job;
use crate::sled::Sled;
use crate::sleds::smallest_alone;
use crate::sleds_part::read_sleds;
use fault::cause::Fault;
use grid::cell::Cell;
use grid::floor::Floor;
use grid::horizon::Horizon;
use grid::place::BOARD_PLACES;

// Where the fields of the node limit and of the floor begin, and where the floor's cells do.
const LIMIT_AT: usize = 4;

const FLOOR_AT: usize = 8;

const CELLS_AT: usize = 13;

impl Job {
    // The smallest job: one step, one node, one free cell, and one sled that stays on it.
    pub fn new() -> Job
        ensures { facts result ≡ smallest }
    {
        let Some(floor) = Floor::new(1, 1, [Cell::Free; BOARD_PLACES]) else {
            unreachable()
        };
        Job {
            horizon: Horizon { steps: 1 },
            limit: 1,
            floor,
            sleds: smallest_alone(),
        }
    }

    // Takes the job of a file. A file that is turned away leaves the job as it was.
    pub fn read(&mut self, file: &[u8]) -> Result<(), Fault>
        ensures { Reads file.now self.old self.new result }
    {
        *self = read_job(file)?;
        Ok(())
    }

    // The number of steps.
    pub fn horizon(&self) -> u8
        ensures { result ≡ (facts self.now).horizon }
    {
        self.span().steps
    }

    // The horizon itself.
    pub fn span(&self) -> Horizon
        ensures { result.steps ≡ (facts self.now).horizon }
    {
        self.horizon
    }

    // The largest number of nodes.
    pub fn limit(&self) -> u16
        ensures { result ≡ (facts self.now).limit }
    {
        self.limit
    }

    pub fn floor(&self) -> Floor
        ensures { result ≡ self.now.floor }
    {
        self.floor
    }

    // How many sleds there are: 1 to 6.
    pub fn sled_count(&self) -> usize
        ensures { result ≡ length (facts self.now).sleds }
    {
        self.sleds.len()
    }

    // The sleds in their order.
    pub fn sleds(&self) -> &[Sled]
        ensures { map values_of result.now ≡ (facts self.now).sleds }
    {
        self.sleds.as_slice()
    }

    // A sled by its number, from 0 on; none past the last.
    pub fn sled(&self, number: usize) -> Option<Sled>
        ensures { SledIs (facts self.now).sleds number result }
    {
        self.sleds().get(number).copied()
    }
}

// The job file's format and what the reader tells of a file are one and the same.
pub fn format_is_exact()
    ensures back { EveryJobIsReadBack }
    ensures only { OnlyItsOwnFileGivesAJob }
{}

fn read_job(file: &[u8]) -> Result<Job, Fault>
    ensures { shown facts result ≡ decode file.now }
{
    let horizon = read_horizon(Field::of(file, 0))?;
    let limit = read_limit(Field::of(file, LIMIT_AT))?;
    let floor = read_floor(Field::of(file, FLOOR_AT))?;
    let start = CELLS_AT + floor.columns() as usize * floor.rows() as usize;
    let sleds = read_sleds(file, start, &floor)?;
    Ok(Job {
        horizon,
        limit: u16::from(limit),
        floor,
        sleds,
    })
}
