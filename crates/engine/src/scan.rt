// Pairs of sleds, instant by instant.
ghost use Rattle.std.specs.Prelude.{◌≡◌, ℕ, ◌<◌, Bool};
ghost use Rattle.engine.specs.Scans.{Pairs, Decides, pair_of, at_sled, at_time, scanned};

// An instant and two sleds, the lower first.
#[derive(Clone, Copy, PartialEq, Debug)]
pub(crate) struct Pair {
    pub(crate) instant: u8,
    pub(crate) first: usize,
    pub(crate) second: usize,
}

// The first pair of a sled and a higher one that passes at an instant.
fn first_with<F: Fn(Pair) -> bool>(
    passes: &F,
    sleds: usize,
    instant: u8,
    first: usize,
) -> Option<Pair>
    requires sled { first < sleds }
    requires callable { (second : ℕ) → first < second → second < sleds → F.pre passes.now (pair_of instant first second) }
    ensures { (test : ℕ → ℕ → ℕ → Bool)
        → ((second : ℕ) (b : Bool) → first < second → second < sleds → F.post passes.now (pair_of instant first second) b → b ≡ test instant first second)
        → result ≡ at_sled sleds test instant first }
{
    (first + 1..sleds).find_map(
        |second|
            requires { F.pre passes.now (pair_of instant first second) }
        {
            let pair = Pair {
                instant,
                first,
                second,
            };
            passes(pair).then_some(pair)
        },
    )
}

// The first pair that passes at an instant.
fn first_at<F: Fn(Pair) -> bool>(passes: &F, sleds: usize, instant: u8) -> Option<Pair>
    requires { (first second : ℕ) → first < second → second < sleds → F.pre passes.now (pair_of instant first second) }
    ensures { (test : ℕ → ℕ → ℕ → Bool)
        → ((first second : ℕ) (b : Bool) → first < second → second < sleds → F.post passes.now (pair_of instant first second) b → b ≡ test instant first second)
        → result ≡ at_time sleds test instant }
{
    (0..sleds).find_map(|first| first_with(passes, sleds, instant, first))
}

// The first pair that passes at one of the first instants.
pub(crate) fn first_pair<F: Fn(Pair) -> bool>(sleds: usize, instants: u8, passes: F) -> Option<Pair>
    requires { Pairs sleds instants (F.pre passes) }
    ensures { (test : ℕ → ℕ → ℕ → Bool) → Decides sleds instants (F.post passes) test → result ≡ scanned sleds test instants }
{
    (0..instants).find_map(|instant| first_at(&passes, sleds, instant))
}
