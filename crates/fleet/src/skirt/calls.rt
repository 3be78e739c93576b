// Giving sleds their margins, and the answers of a fleet with margins.
ghost use Rattle.std.specs.Prelude.{◌≡◌, ◌≤◌, replicate, Decides};
ghost use Rattle.fleet.specs.SkirtFleets.{skirt, reaches_past, is_cut, margin_of, margins_of, Given, Skirted, Cut};
ghost use Rattle.fleet.specs.Skirts.{skirt_told, within_more};
ghost use Rattle.std.proofs.Common.{rules, arith};

use crate::offset::Offset;
use crate::scan::{REACH, any_beside, any_offset};
use crate::skirt::{Margin, Skirt};
use crate::{Fleet, MAX_SLEDS};
use fault::cause::{Cause, Fault};

const MAX_MARGIN: u8 = 3;

impl<F: Fleet> Skirt<F> {
    // A fleet with no margins yet.
    pub fn new(inner: F) -> Skirt<F>
        ensures fleet { result.inner ≡ inner }
        ensures bare { margins_of result ≡ replicate 6 0 }
    {
        Skirt {
            inner,
            margins: [Margin { cells: 0 }; MAX_SLEDS],
        }
    }

    // Gives a sled its margin, from 0 to 3, if all its offsets then stay from -7 to 7.
    pub fn set_skirt(&mut self, sled: u8, cells: u8) -> Result<(), Fault>
        ensures outcome { Given (F.Fleet.size self.old.inner) (F.Fleet.offsets self.old.inner) sled cells self.old self.new result }
        ensures meaning { cells ≤ 3 → Decides (is_cut cells (F.Fleet.offsets self.old.inner sled)) (Cut cells (F.Fleet.offsets self.old.inner sled)) }
    {
        if sled >= self.inner.count() || cells > MAX_MARGIN {
            return Err(Cause::ValueOutsideLimits.into());
        }
        let limit = REACH - cells;
        let reaches_past = |offset: Offset| {
            self.inner.has(sled, offset) && !offset.is_within(limit)
        };
        if any_offset(reaches_past) {
            return Err(Cause::OffsetTooFar.at(sled as usize));
        }
        self.margins[sled as usize] = Margin { cells };
        Ok(())
    }

    // Whether a skirt of so many cells has the offset.
    fn skirt_has(&self, sled: u8, cells: u8, offset: Offset) -> bool
        requires { cells ≤ 3 }
        ensures { result ≡ skirt cells (F.Fleet.offsets self.now.inner sled) offset.dx offset.dy }
    {
        offset.is_within(REACH) && any_beside(|near| self.inner.has(sled, near), cells, offset)
    }
}

impl<F: Fleet> Fleet for Skirt<F> {
    ghost size = { λ k. F.Fleet.size k.inner };

    ghost offsets = { λ k s. skirt (margin_of k s) (F.Fleet.offsets k.inner s) };

    ghost few = { first_of (Prim.search rules, Prim.grind (arith, Self.row.coded.inj)) };

    ghost only = { λ f s x y e.
        let near = ((skirt_told (margin_of f s) (F.Fleet.offsets f.inner s) x y).0 e).beside in
        F.Fleet.only f.inner s near.a near.b near.is_below };

    ghost near = { λ f s x y e. let k = (skirt_told (margin_of f s) (F.Fleet.offsets f.inner s) x y).0 e in (k.cut_across, k.cut_down) };

    ghost some = { λ f s below.
        let m = margin_of f s in
        let (x, y, has) = F.Fleet.some f.inner s below in
        let (near_x, near_y) = F.Fleet.near f.inner s x y has in (
          x,
          y,
          (skirt_told m (F.Fleet.offsets f.inner s) x y).1
              (record { cut_across = near_x; cut_down = near_y; beside = record { a = x; b = y; is_below = has; across = within_more m x; down = within_more m y } }),
        ) };

    fn count(&self) -> u8 {
        self.inner.count()
    }

    fn has(&self, sled: u8, offset: Offset) -> bool
        ensures value { result ≡ skirt (margin_of self.now sled) (F.Fleet.offsets self.now.inner sled) offset.dx offset.dy }
        ensures meaning { Decides result (Skirted (margin_of self.now sled) (F.Fleet.offsets self.now.inner sled) offset.dx offset.dy) }
    {
        self.margins
            .get(sled as usize)
            .is_some_and(|margin| self.skirt_has(sled, margin.cells, offset))
    }
}
