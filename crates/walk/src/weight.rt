// Weights, and the weights of steps.
ghost use Rattle.std.specs.Prelude.{◌≡◌, ℕ};
ghost use Rattle.walk.specs.Semiring.{Ops, Laws};

// What a walk adds over sequences and multiplies along one: a semiring.
pub trait Weight: Sized {
    ghost ops: { Ops Self };

    fn nought() -> Self
        ensures { result ≡ ops.nought };

    fn one() -> Self
        ensures { result ≡ ops.one };

    fn plus(self, other: Self) -> Self
        ensures { result ≡ ops.add self other };

    fn times(self, other: Self) -> Self
        ensures { result ≡ ops.mul self other };

    ghost laws: { Laws ops };
}

// A step: it leaves the place `from` at an instant and goes to the place `to`.
#[derive(Clone, Copy, PartialEq, Debug)]
pub struct Step {
    pub instant: u8,
    pub from: u8,
    pub to: u8,
}

// What each step weighs. A trait and not a closure: with one, each clause of the walk would begin with a step that the closure tells.
pub trait Steps<W> {
    ghost step: { Self → ℕ → ℕ → ℕ → W };

    fn weight(&self, taken: Step) -> W
        ensures { result ≡ step self.now taken.instant taken.from taken.to };
}
