// A count that stops at 65,535.
ghost use Rattle.std.specs.Prelude.{◌≤◌};

#[derive(Clone, Copy, PartialEq, Debug)]
pub struct Count {
    pub value: u16,
    // Without it the law of adding nought stays open: it is said of every number, and 65,536 would become 65,535.
    ghost most: { value ≤ 65535 },
}
