// What a search holds.
ghost use Rattle.std.specs.Prelude.{◌≡◌};

use engine::Engine;
use instance::instance::Instance;
use instance::ruled::Ruled;

// A fleet, a rule, all memory that a tree takes, and what is opened, if anything is.
#[derive(Drop)]
pub struct Search<F, R> {
    pub(crate) fleet: F,
    pub(crate) rule: R,
    pub(crate) engine: Engine,
    pub(crate) opened: Option<Opened>,
}

// What there is to plan, and the turns made since it was opened.
#[derive(Clone, Copy)]
pub(crate) struct Opened {
    pub(crate) instance: Instance,
    pub(crate) turns: u32,
}

impl Opened {
    // What is planned, by a rule.
    pub(crate) fn problem<'a, R>(&'a self, rule: &'a R) -> Ruled<'a, R>
        ensures instance_is { result.instance.now ≡ self.now.instance }
        ensures rule_is { result.rule.now ≡ rule.now }
    {
        Ruled {
            instance: &self.instance,
            rule,
        }
    }
}
