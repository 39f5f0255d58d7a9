//! A field is the length of a text in four bytes, the first of them the greatest, and the text.

ghost use Rattle.std.specs.Prelude.{◌≡◌, ◌<◌, ◌^◌, ◌++◌, length, OnOk};
ghost use Rattle.std.specs.Int.{w32};
ghost use Rattle.till_program.specs.Frames.{field};
ghost use Rattle.till_program.specs.Reading.{Is, number_at, field_at};

use crate::fault::NoFrame;
use std::alloc::AllocError;

/// Adds a field.
pub(crate) fn put_field(out: &mut Vec<u8>, text: &[u8]) -> Result<(), AllocError>
    requires { length text.now < 2 ^ 32 }
    ensures { OnOk result (out.new.items ≡ out.old.items ++ field text.now) }
{
    out.extend_from_slice(&(text.len() as u32).to_be_bytes())?;
    out.extend_from_slice(text)
}

/// Returns the number in the first four bytes, and what follows.
pub(crate) fn number_of(bytes: &[u8]) -> Result<(u32, &[u8]), NoFrame>
    ensures { Is (λ x. (x.0, x.1.now)) result (number_at w32 bytes.now) }
{
    if bytes.len() < 4 {
        return Err(NoFrame::Short);
    }
    let (front, rest) = bytes.split_at(4);
    let number = u32::from_be_bytes([front[0], front[1], front[2], front[3]]);
    Ok((number, rest))
}

/// Returns the text of the first field, of at most so many bytes, and what follows. Fails with `Long` as soon as the
/// length is there and is greater, and with `Short` if the bytes end before the field does.
#[tactic(auto, unfolding(crate::specs::Reading::field_at))]
pub(crate) fn field_of(bytes: &[u8], most: u32) -> Result<(&[u8], &[u8]), NoFrame>
    ensures { Is (λ x. (x.0.now, x.1.now)) result (field_at most bytes.now) }
{
    let (len, rest) = number_of(bytes)?;
    if most < len {
        return Err(NoFrame::Long);
    }
    let len = len as usize;
    if rest.len() < len {
        return Err(NoFrame::Short);
    }
    Ok(rest.split_at(len))
}
