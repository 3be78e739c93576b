// Dice: from the same seed the same numbers are thrown, on every machine.
ghost use Rattle.std.specs.Prelude.{◌≡◌, ◌+◌, ◌-◌, ◌<◌, ◌≤◌, ◌==◌};
ghost use Rattle.trial_tools.specs.Throws.{next_state, face};

// A linear generator modulo 2^64, by its factor and its step; what is thrown is the high half of its state.
const FACTOR: u64 = 6_364_136_223_846_793_005;

const STEP: u64 = 1_442_695_040_888_963_407;

#[derive(Drop)]
pub struct Dice {
    state: u64,
}

impl Dice {
    pub fn new(seed: u64) -> Dice
        ensures { result.state ≡ seed }
    {
        Dice { state: seed }
    }

    // A number below so many faces; 0 where there are none.
    pub fn below(&mut self, faces: u32) -> u32
        ensures state { self.new.state ≡ next_state self.old.state }
        ensures value { result ≡ face self.new.state faces }
        ensures below { 0 < faces → result < faces }
    {
        self.state = self.state.wrapping_mul(FACTOR).wrapping_add(STEP);
        let high = (self.state >> 32) as u32;
        if faces == 0 { 0 } else { high % faces }
    }

    // A number from 0 to the most.
    pub fn up_to(&mut self, most: u8) -> u8
        ensures state { self.new.state ≡ next_state self.old.state }
        ensures value { result ≡ face self.new.state (most + 1) }
        ensures most { result ≤ most }
    {
        self.below(u32::from(most) + 1) as u8
    }

    // A number from the least to the most; the least where the most is lower.
    pub fn between(&mut self, least: u8, most: u8) -> u8
        ensures state { self.new.state ≡ next_state self.old.state }
        ensures value { result ≡ least + face self.new.state (most - least + 1) }
        ensures least { least ≤ result }
        ensures most { least ≤ most → result ≤ most }
    {
        least + self.up_to(most.saturating_sub(least))
    }

    // True once in so many times, on the whole.
    pub fn is_one_in(&mut self, times: u32) -> bool
        ensures state { self.new.state ≡ next_state self.old.state }
        ensures value { result ≡ (face self.new.state times == 0) }
    {
        self.below(times) == 0
    }
}
