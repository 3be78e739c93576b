// Text in a lent buffer: bytes, and numbers in decimal without leading zeros.
#![tactic(auto)]

ghost use Rattle.std.specs.Prelude.{◌≡◌, ◌+◌, ◌<◌, ◌≤◌, length, decimal, Some, IfSome, IfNone};
ghost use Rattle.text.specs.Texts.{written, Puts};

// A text that is written from the front of a lent buffer on: the buffer, and the position after what is written. A put for which there
// is no room writes nothing and leaves no position; and from no position nothing more is written.
#[derive(Drop)]
pub struct Text<'a> {
    out: &'a mut [u8],
    at: Option<usize>,
}

impl<'a> Text<'a> {
    // A text that goes on from a position of the buffer, if there is one.
    pub fn going_on(out: &'a mut [u8], at: Option<usize>) -> Text<'a>
        ensures same_buffer { result.out.ghost_name ≡ out.entry.ghost_name }
        ensures buffer { result.out.now ≡ out.old }
        ensures position { result.at ≡ at }
    {
        Text { out, at }
    }

    // Nothing is written yet.
    pub fn new(out: &'a mut [u8]) -> Text<'a>
        ensures same_buffer { result.out.ghost_name ≡ out.entry.ghost_name }
        ensures buffer { result.out.now ≡ out.old }
        ensures front { result.at ≡ Some 0 }
    {
        Text::going_on(out, Some(0))
    }

    // The length of the text, if there was room for all of it.
    pub fn length(&self) -> Option<usize>
        ensures { result ≡ self.now.at }
    {
        let Text { at, .. } = self;
        *at
    }

    pub fn put(&mut self, bytes: &[u8])
        ensures { Puts self.old bytes.now self.new }
    {
        self.at = self.room(bytes.len());
        if let Some(at) = self.at {
            let end = at + bytes.len();
            self.out[at..end].copy_from_slice(bytes);
            self.at = Some(end);
        }
    }

    pub fn put_number(&mut self, n: usize)
        ensures { Puts self.old (decimal n) self.new }
    {
        self.at = self.room(digit_count(n));
        if let Some(at) = self.at {
            self.at = Some(put_digits(self.out, at, n));
        }
    }

    // The position to write at, if there is room for some bytes more.
    fn room(&self, more: usize) -> Option<usize>
        ensures some { IfSome result (λ at. (self.now.at ≡ Some at) × (at + more ≤ length self.now.out.now)) }
        ensures none { IfNone result (IfSome self.now.at (λ at. length self.now.out.now < at + more)) }
    {
        let free = self.out.len().checked_sub(self.at?)?;
        if more <= free { self.at } else { None }
    }
}

// How many digits a number has.
fn digit_count(n: usize) -> usize
    ensures count { result ≡ length (decimal n) }
    ensures few { result ≤ 20 }
{
    n.checked_ilog10().map_or(
        1,
        |power|
            requires { power < 20 }
        { power as usize + 1 },
    )
}

// Writes the digits of a number where there is room for them.
// By hand: of `write!` into lent memory it is told what stands there only where all of it had room.
fn put_digits(out: &mut [u8], at: usize, n: usize) -> usize
    requires { at + length (decimal n) ≤ length out.old }
    ensures end { result ≡ at + length (decimal n) }
    ensures bytes { out.new ≡ written out.old at (decimal n) }
{
    if n < 10 {
        out[at] = b'0' + n as u8;
        return at + 1;
    }
    let last = put_digits(out, at, n / 10);
    out[last] = b'0' + (n % 10) as u8;
    last + 1
}
