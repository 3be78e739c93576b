// A check that names what is wrong.
ghost use Rattle.std.specs.Prelude.{◌≡◌, cond, Ok, Err};

// Refuses for this reason unless something holds.
pub fn check<E: Drop>(holds: bool, reason: E) -> Result<(), E>
    ensures { result ≡ cond holds (Ok tt) (Err reason) }
{
    if holds { Ok(()) } else { Err(reason) }
}
