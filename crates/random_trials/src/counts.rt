// How often the searches under one splitting rule ended in each way.
use crate::difference::Difference;
use crate::trial::Ending;
use std::io;

#[derive(Clone, Copy)]
pub struct Counts {
    rule: &'static str,
    solved: u32,
    // of these, in more than one turn
    split: u32,
    none: u32,
    full: u32,
    cannot_stand: u32,
    different: u32,
}

impl Counts {
    pub fn of(rule: &'static str) -> Counts {
        Counts {
            rule,
            solved: 0,
            split: 0,
            none: 0,
            full: 0,
            cannot_stand: 0,
            different: 0,
        }
    }

    // Counts the end of the search of a job, and prints a difference.
    pub fn add(
        &mut self,
        rt: &impl Print,
        job: u32,
        ended: Result<Ending, Difference>,
    ) -> io::Result<()> {
        match ended {
            Ok(Ending::Solved { turns }) => {
                add_one(&mut self.solved);
                if turns > 1 {
                    add_one(&mut self.split);
                }
            }
            Ok(Ending::NoPlan) => add_one(&mut self.none),
            Ok(Ending::Full) => add_one(&mut self.full),
            Ok(Ending::CannotStand) => add_one(&mut self.cannot_stand),
            Err(difference) => {
                add_one(&mut self.different);
                println!(rt; "job {job}, {}: {difference:?}", self.rule)?;
            }
        }
        Ok(())
    }

    pub fn show(&self, rt: &impl Print) -> io::Result<()> {
        print!(rt;
            "{}: {} solved, {} of them in more",
            self.rule, self.solved, self.split
        )?;
        print!(rt;
            " than one turn, {} without a plan, {} full",
            self.none, self.full
        )?;
        println!(rt;
            ", {} cannot stand, {} differences",
            self.cannot_stand, self.different
        )
    }
}

fn add_one(count: &mut u32) {
    *count = count.saturating_add(1);
}
