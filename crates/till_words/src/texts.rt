//! Reads amounts in dollars and lists of numbers, as they are typed.

ghost use Rattle.std.specs.Prelude.{◌≡◌, ◌<◌, ◌==◌, true, IfOk, IfSome, map, option_map};
ghost use Rattle.std.specs.List.{slice_split};
ghost use Rattle.till_words.specs.Texts as spec;

use shop_types::{RowNumber, decimal};
use std::alloc::{AllocError, Global};

// ---- amounts

/// Returns the number that 1 to 5 digits write.
fn five_digits(bytes: &[u8]) -> Option<u32>
    ensures value { result ≡ spec.five_digits_value bytes.now }
    ensures bound { IfSome result (λ n. n < 100_000) }
{
    if bytes.len() > 5 {
        return None;
    }
    let number = decimal(bytes)?;
    Some(number as u32)
}

/// Returns the text without its dollar sign, if it begins with one.
fn without_dollar(bytes: &[u8]) -> &[u8]
    ensures { result.now ≡ spec.without_dollar bytes.now }
{
    match bytes {
        [b'$', rest @ ..] => rest,
        _ => bytes,
    }
}

/// Reports whether the third byte from the end is a point.
fn has_point(bytes: &[u8]) -> bool
    ensures { result ≡ spec.has_point bytes.now }
{
    bytes.len() >= 3 && bytes[bytes.len() - 3] == b'.'
}

/// Reads dollars, a point and two digits, and returns the cents.
fn dollars_and_cents(bytes: &[u8]) -> Option<u32>
    requires { spec.has_point bytes.now ≡ true }
    ensures { result ≡ spec.dollars_and_cents bytes.now }
{
    let point = bytes.len() - 3;
    let dollars = five_digits(&bytes[..point])?;
    let cents = five_digits(&bytes[point + 1..])?;
    Some(dollars * 100 + cents)
}

fn whole_dollars(bytes: &[u8]) -> Option<u32>
    ensures { result ≡ spec.whole_dollars bytes.now }
{
    let dollars = five_digits(bytes)?;
    Some(dollars * 100)
}

/// Returns the cents of an amount in dollars: `4.99`, `5`, `0.50` or `$5`.
pub(crate) fn cents_of(text: &str) -> Option<u32>
    ensures { result ≡ spec.cents_of text.now }
{
    let bytes = without_dollar(text.as_bytes());
    if has_point(bytes) {
        dollars_and_cents(bytes)
    } else {
        whole_dollars(bytes)
    }
}

// ---- lists

/// Returns the texts between the commas.
fn pieces<'a>(alloc: Global, text: &'a str) -> Result<Vec<&'a str>, AllocError>
    ensures { IfOk result (λ found. map (λ s. s.now) found.items ≡ slice_split (λ b. b == 44) text.entry.now) }
{
    text.split(',').collect(alloc)
}

/// Returns the numbers that the pieces write, or none if a piece writes no number.
fn all_numbers<const KIND: u8>(
    alloc: Global,
    pieces: &[&str],
) -> Result<Option<Vec<RowNumber<KIND>>>, AllocError>
    ensures { IfOk result (λ found. option_map (λ v. v.items) found ≡ spec.all_numbers (map (λ s. s.now) pieces.now)) }
{
    let mut numbers = Vec::new(alloc);
    for piece in pieces {
        let Some(number) = RowNumber::read(piece.as_bytes()) else {
            return Ok(None);
        };
        numbers.push(number)?;
    }
    Ok(Some(numbers))
}

/// Returns the numbers of a list with commas between them, or none if a part isn't a number.
pub(crate) fn numbers_of<const KIND: u8>(
    alloc: Global,
    text: &str,
) -> Result<Option<Vec<RowNumber<KIND>>>, AllocError>
    ensures { IfOk result (λ found. option_map (λ v. v.items) found ≡ spec.numbers_of text.now) }
{
    let pieces = pieces(alloc, text)?;
    all_numbers(alloc, pieces.as_slice())
}

/// Returns the numbers of a list that may be empty.
pub(crate) fn any_numbers_of<const KIND: u8>(
    alloc: Global,
    text: &str,
) -> Result<Option<Vec<RowNumber<KIND>>>, AllocError>
    ensures { IfOk result (λ found. option_map (λ v. v.items) found ≡ spec.any_numbers_of text.now) }
{
    if text.is_empty() {
        return Ok(Some(Vec::new(alloc)));
    }
    numbers_of(alloc, text)
}
