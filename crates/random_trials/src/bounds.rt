// The bounds that a search tells, one after the other.
use crate::difference::Difference;
use trial_tools::check::check;

// The least sum of all plans, if there is a plan, and the bound told last; no bound is told where no plan is left.
#[derive(Clone, Copy)]
pub struct Bounds {
    least: Option<u16>,
    last: Option<u16>,
}

impl Bounds {
    pub fn new(least: Option<u16>) -> Bounds {
        Bounds {
            least,
            last: Some(0),
        }
    }

    // The next bound that is told: no plan lies below it, and it lies not below the one before.
    pub fn hear(&mut self, told: Option<u16>) -> Result<(), Difference> {
        match (told, self.least) {
            (Some(bound), Some(least)) => check(bound <= least, Difference::BoundAbovePlan)?,
            (None, Some(_)) => return Err(Difference::BoundMissing),
            (_, None) => {}
        }
        match (self.last, told) {
            (Some(last), Some(bound)) => check(last <= bound, Difference::BoundFell)?,
            (None, Some(_)) => return Err(Difference::BoundFell),
            (_, None) => {}
        }
        self.last = told;
        Ok(())
    }

    pub fn last(&self) -> Option<u16> {
        self.last
    }
}
