//! Numbers in a row, with commas between.

ghost use Rattle.std.specs.Prelude.{◌≡◌, map, IfOk, OnOk, string_bytes};
ghost use Rattle.till_shows.specs.Numbers.{with_number, commas};

use shop_types::Numbers;
use std::alloc::{AllocError, Global};

/// Adds a number to the end of the text, after a comma unless the text is empty.
fn add_number(alloc: Global, text: &mut String, number: u64) -> Result<(), AllocError>
    ensures { OnOk result (string_bytes text.new ≡ with_number (string_bytes text.old) number) }
{
    let piece = if text.as_str().is_empty() {
        format!(in alloc; "{number}")?
    } else {
        format!(in alloc; ", {number}")?
    };
    text.push_str(piece.as_str())
}

/// Returns the numbers, with commas between.
pub(crate) fn commas<const KIND: u8>(
    alloc: Global,
    numbers: &Numbers<KIND>,
) -> Result<String, AllocError>
    ensures { IfOk result (λ s. string_bytes s ≡ commas numbers.now) }
{
    let mut text = String::new(alloc);
    for number in numbers.as_slice() {
        add_number(alloc, &mut text, number.get() as u64)?;
    }
    Ok(text)
}

/// Returns plain numbers, with commas between.
pub(crate) fn plain_commas(alloc: Global, numbers: &[u64]) -> Result<String, AllocError>
    ensures { IfOk result (λ s. string_bytes s ≡ commas numbers.now) }
{
    let mut text = String::new(alloc);
    for number in numbers {
        add_number(alloc, &mut text, *number)?;
    }
    Ok(text)
}
