// A field of a job file as bytes.
ghost use Rattle.std.specs.Prelude.{◌≡◌, ◌++◌, OnErr, OnOk};
ghost use Rattle.trial_tools.specs.Fields.{field};

use std::alloc::AllocError;

// Puts a tag, the length of the value in two bytes, and the value behind what is there. A length that two bytes cannot tell is told as the
// highest that they can.
pub fn put_field(file: &mut Vec<u8>, tag: u8, value: &[u8]) -> Result<(), AllocError>
    ensures put { OnOk result (file.new.items ≡ file.old.items ++ field tag value.now) }
    ensures kept { OnErr result (file.new.items ≡ file.old.items) }
{
    file.reserve(value.len().saturating_add(3))?;
    let length = u16::try_from(value.len()).unwrap_or(u16::MAX);
    let [high, low] = length.to_be_bytes();
    file.extend_from_slice(&[tag, high, low])?;
    file.extend_from_slice(value)
}
