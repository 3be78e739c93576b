// A sled as it can go: its cells, the places where it may stand, the steps between them, and its errand.
use crate::case::{Floor, Sled, Spot};
use crate::cells::Offset;
use crate::going::{Going, Way};
use std::alloc::{AllocError, Global};

#[derive(Drop)]
pub struct Traveller {
    pub cells: Vec<Offset>,
    pub spots: Vec<Spot>,
    pub steps: Vec<Going>,
    pub start: Spot,
    pub goal: Spot,
}

const NOWHERE: Spot = Spot { column: 0, row: 0 };

impl Traveller {
    pub fn of(alloc: Global, floor: &Floor, sled: &Sled) -> Result<Traveller, AllocError> {
        let cells = sled.form.offsets(alloc)?;
        let spots = floor.standing(alloc, sled.form)?;
        let steps = steps_between(alloc, spots.as_slice())?;
        Ok(Traveller {
            cells,
            spots,
            steps,
            start: sled.start,
            goal: sled.goal,
        })
    }

    // A sled that is not there: it has no cells, and can only stay.
    pub fn absent(alloc: Global) -> Result<Traveller, AllocError> {
        let spots = vec![in alloc; NOWHERE]?;
        let steps = steps_between(alloc, spots.as_slice())?;
        Ok(Traveller {
            cells: Vec::new(alloc),
            spots,
            steps,
            start: NOWHERE,
            goal: NOWHERE,
        })
    }

    // Whether it may stand where it begins and where it ends.
    pub fn can_begin_and_end(&self) -> bool {
        self.spots.contains(&self.start) && self.spots.contains(&self.goal)
    }

    pub fn way(&self, going: Going) -> Way<'_> {
        Way {
            cells: self.cells.as_slice(),
            going,
        }
    }
}

fn steps_between(alloc: Global, spots: &[Spot]) -> Result<Vec<Going>, AllocError> {
    let mut steps = Vec::new(alloc);
    for from in spots {
        for to in spots {
            let going = Going {
                from: *from,
                to: *to,
            };
            if going.is_step() {
                steps.push(going)?;
            }
        }
    }
    Ok(steps)
}
