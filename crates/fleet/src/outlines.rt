// Sleds drawn cell by cell.
ghost use Rattle.std.specs.Prelude.{◌≡◌, ◌≤◌, ◌==◌, true};
ghost use Rattle.std.specs.List.{list_all};
ghost use Rattle.fleet.specs.Outlined.{is_drawn, bit_of};

use crate::offset::Offset;
use crate::shapes::{Shape, Shapes};
use fault::cause::{Cause, Fault};

// Eight rows of eight cells; the highest bit of a row is its first cell. Some cell is drawn.
#[derive(Clone, Copy)]
pub struct Outline {
    rows: [u8; 8],
    ghost drawn: { is_drawn rows ≡ true },
}

pub type Outlines = Shapes<Outline>;

impl TryFrom<[u8; 8]> for Outline {
    type Error = Fault;

    ghost use Rattle.fleet.specs.OutlineFleets.{IsOutline};

    ghost try_from_gives = { IsOutline };

    fn try_from(rows: [u8; 8]) -> Result<Outline, Fault> {
        if is_blank(&rows) {
            return Err(Cause::ValueOutsideLimits.into());
        }
        Ok(Outline { rows })
    }
}

impl Shape for Outline {
    ghost use Rattle.std.proofs.Common.{arith};
    ghost use Rattle.std.proofs.lemmas.Int.{ints};
    ghost use Rattle.std.proofs.lemmas.Bool.Decides.{nat_tests};
    ghost use Rattle.fleet.specs.Outlined.{outline};
    ghost use Rattle.fleet.specs.Cells.{some_cell};

    ghost covers = { λ o. outline o.rows };

    ghost near = { λ o x y e. ((Prim.grind (arith, nat_tests, ints, e), Prim.grind (arith, nat_tests, ints, e)), (Prim.grind (arith, nat_tests, ints, e), Prim.grind (arith, nat_tests, ints, e))) };

    ghost some = { λ o. some_cell o.rows o.drawn };

    const FILLER: Outline = Outline { rows: [1; 8] };

    fn has(&self, offset: Offset) -> bool {
        let sides = 0..8;
        sides.contains(&offset.dx)
            && sides.contains(&offset.dy)
            && is_set(self.rows[offset.dy as usize], offset.dx as u32)
    }
}

impl Shapes<Outline> {
    ghost use Rattle.fleet.specs.OutlineFleets.{Drawn};

    // One sled more, with some cell drawn; at most six. One `add` for every kind would take a shape, and leave to its callers what is
    // refused here.
    pub fn add(&mut self, rows: [u8; 8]) -> Result<(), Fault>
        ensures { Drawn rows self.old self.new result }
    {
        self.join(Outline::try_from(rows)?)
    }
}

// Whether a bit is set, where the highest is bit 0.
fn is_set(row: u8, bit: u32) -> bool
    requires { bit ≤ 7 }
    ensures { result ≡ bit_of row bit }
{
    (row >> (7 - bit)) % 2 == 1
}

// A job asks the same of a drawing: neither crate knows the other, and for one line a function in a crate below both would be longer than
// what it saves.
fn is_blank(rows: &[u8; 8]) -> bool
    ensures { result ≡ list_all (λ row. row == 0) rows.now }
{
    rows.iter().all(|row| *row == 0)
}
