// The fields of a job file: a tag, a length of two bytes, and a value.
ghost use Rattle.std.specs.Prelude.{◌≡◌, ◌≤◌, length, drop};
ghost use Rattle.fault.specs.Causes.{fault_at};
ghost use Rattle.job.specs.Reading.{header_of, one_byte, horizon_of, limit_of, shown};
ghost use Rattle.job.specs.Values.{check_value};

use crate::value::Value;
use fault::cause::{Cause, Fault};
use grid::horizon::Horizon;

// A header takes three bytes.
pub(crate) const HEADER: usize = 3;

// A field's tag, and the length that it gives its value.
#[derive(Clone, Copy)]
pub(crate) struct Header {
    pub tag: u8,
    pub size: u16,
}

// The file from a field on, and the byte that the field begins with.
#[derive(Clone, Copy)]
pub(crate) struct Field<'a> {
    pub rest: &'a [u8],
    pub at: usize,
}

impl<'a> Field<'a> {
    pub(crate) fn of(file: &'a [u8], at: usize) -> Field<'a>
        requires { at ≤ length file.now }
        ensures rest { result.rest.now ≡ drop at file.now }
        ensures at { result.at ≡ at }
    {
        Field {
            rest: &file[at..],
            at,
        }
    }

    pub(crate) fn refused(self, cause: Cause) -> Fault
        ensures { result ≡ fault_at cause self.entry.at }
    {
        cause.at(self.at)
    }

    pub(crate) fn header(self) -> Result<Header, Fault>
        ensures { result ≡ header_of self.entry.at self.entry.rest.now }
    {
        match self.rest {
            [tag, high, low, ..] => Ok(Header {
                tag: *tag,
                size: u16::from_be_bytes([*high, *low]),
            }),
            _ => Err(self.refused(Cause::EndsInsideField)),
        }
    }

    // Refuses a value outside its limits.
    pub(crate) fn check(self, value: Value) -> Result<(), Fault>
        ensures { result ≡ check_value value self.entry.at }
    {
        let at = self.at;
        value.check().map_err(|cause| cause.at(at))
    }

    // The value, where the field has the tag and one byte.
    fn byte(self, tag: u8) -> Result<u8, Fault>
        ensures { result ≡ one_byte tag self.entry.at self.entry.rest.now }
    {
        let header = self.header()?;
        if header.tag != tag {
            return Err(self.refused(Cause::TagNotDue));
        }
        if header.size != 1 {
            return Err(self.refused(Cause::WrongLength));
        }
        let value = self.rest.get(HEADER).copied();
        value.ok_or(self.refused(Cause::EndsInsideField))
    }
}

pub(crate) fn read_horizon(field: Field) -> Result<Horizon, Fault>
    ensures { shown (λ h. h.steps) result ≡ horizon_of field.entry.at field.entry.rest.now }
{
    let steps = field.byte(b'H')?;
    Horizon::new(steps).ok_or(field.refused(Cause::ValueOutsideLimits))
}

pub(crate) fn read_limit(field: Field) -> Result<u8, Fault>
    ensures { result ≡ limit_of field.entry.at field.entry.rest.now }
{
    let nodes = field.byte(b'N')?;
    field.check(Value::Limit(nodes))?;
    Ok(nodes)
}
