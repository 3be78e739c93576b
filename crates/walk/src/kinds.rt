// Two kinds of weight: yes or no, and counts.
ghost use Rattle.std.specs.Prelude.{◌≡◌};
ghost use Rattle.walk.specs.Kinds.{either_both, capped};
ghost use Rattle.std.proofs.Common.{rules};
ghost use Rattle.walk.specs.Laws.{capped_laws};

use crate::count::Count;
use crate::weight::Weight;

// Whether some sequence passes.
impl Weight for bool {
    ghost ops = { either_both };

    ghost laws = { Prim.search rules };

    fn nought() -> bool {
        false
    }

    fn one() -> bool {
        true
    }

    fn plus(self, other: bool) -> bool {
        self | other
    }

    fn times(self, other: bool) -> bool {
        self & other
    }
}

// How many sequences pass.
impl Weight for Count {
    ghost ops = { capped };

    ghost laws = { capped_laws };

    fn nought() -> Count {
        Count { value: 0 }
    }

    fn one() -> Count {
        Count { value: 1 }
    }

    fn plus(self, other: Count) -> Count {
        Count {
            value: self.value.saturating_add(other.value),
        }
    }

    fn times(self, other: Count) -> Count {
        Count {
            value: self.value.saturating_mul(other.value),
        }
    }
}
