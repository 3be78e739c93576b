// What is shown of the definitions alone.
ghost use Rattle.std.specs.Prelude.{ℕ, Bool, List};
ghost use Rattle.walk.specs.Plain.{CostIsLeast};
ghost use Rattle.walk.specs.Sleds.{RoutesAreSledRoutes};

// A cost is the least instant from which on a route stays at its goal, and the routes by steps between places to stand at are the routes of
// a sled.
pub fn shown()
    ensures costs { (goal : ℕ) (r : List ℕ) → CostIsLeast goal r }
    ensures sleds { (may : ℕ → Bool) (n start goal : ℕ) (s : List ℕ) → RoutesAreSledRoutes may n start goal s }
{}
