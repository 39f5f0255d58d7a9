//! Checks a form part after part. Each part shows where it ends, so the check makes no value and takes no memory.

ghost use Rattle.std.specs.Prelude.{◌≡◌, ◌≢◌, ◌↔◌, ◌++◌, IsTrue, ℕ, List, IfSome, IfNone, length, map};
ghost use Rattle.shop_schema.specs.Forms.{number_form, text_form, AreNumbers, AreBytes};
ghost use Rattle.books_audit.specs.Forms.{IsPartForm, IsForm, IsOneOf, form_of_each};

use crate::texts::{are_features, is_key, is_rating, is_text, is_utf8};
use shop_types::{Moment, Token};

/// A part of a stored form.
#[derive(Clone, Copy)]
pub(crate) enum Part {
    /// A number within the two bounds.
    Number(u32, u32),
    /// A text without control bytes, whose length in bytes is within the two bounds.
    Text(usize, usize),
    /// A key, or the name of a lot.
    Key,
    /// The token of a branch or of head office.
    Token,
    /// A film's rating.
    Rating,
    /// A film's special features.
    Features,
    /// At most so many bytes.
    Bytes(usize),
    /// A truth value.
    Flag,
    /// The truth value false.
    Unset,
    /// A moment.
    Moment,
    /// At most so many numbers of rows.
    Numbers(u32),
    /// A number within the two bounds, or none.
    Optional(u32, u32),
}

// ---- numbers and texts

/// Splits off the number at the start of the bytes. Returns the number and the rest.
fn number_at(bytes: &[u8]) -> Option<(u32, &[u8])>
    ensures found { IfSome result (λ x. bytes.now ≡ number_form x.0 ++ x.1.now) }
    ensures none { IfNone result ((n : ℕ) (rest : List ℕ) → bytes.now ≢ number_form n ++ rest) }
{
    match bytes {
        [a, b, c, d, rest @ ..] => {
            let low = *a as u32 + 256 * (*b as u32);
            let high = *c as u32 + 256 * (*d as u32);
            Some((low + 65_536 * high, rest))
        }
        _ => None,
    }
}

/// Splits off the text at the start of the bytes. Returns the text and the rest.
fn text_at(bytes: &[u8]) -> Option<(&[u8], &[u8])>
    ensures found { IfSome result (λ x. bytes.now ≡ text_form x.0.now ++ x.1.now) }
    ensures none { IfNone result ((t : List ℕ) (rest : List ℕ) → bytes.now ≢ text_form t ++ rest) }
{
    let (count, rest) = number_at(bytes)?;
    let count = count as usize;
    if rest.len() < count {
        return None;
    }
    Some(rest.split_at(count))
}

// ---- parts

/// Skips a number at the start of the bytes, if it is within the bounds. Returns the rest.
fn skip_number(low: u32, high: u32, bytes: &[u8]) -> Option<&[u8]>
    ensures found { IfSome result (λ rest. (piece : List ℕ) × IsPartForm (Part.Number low high) piece
        × (bytes.now ≡ piece ++ rest.now)) }
    ensures none { IfNone result ((piece rest : List ℕ) → IsPartForm (Part.Number low high) piece
        → bytes.now ≢ piece ++ rest) }
{
    let (number, rest) = number_at(bytes)?;
    if low <= number && number <= high {
        Some(rest)
    } else {
        None
    }
}

/// Skips a text at the start of the bytes, if its length is within the bounds. Returns the rest.
fn skip_text(low: usize, high: usize, bytes: &[u8]) -> Option<&[u8]>
    ensures found { IfSome result (λ rest. (piece : List ℕ) × IsPartForm (Part.Text low high) piece
        × (bytes.now ≡ piece ++ rest.now)) }
    ensures none { IfNone result ((piece rest : List ℕ) → IsPartForm (Part.Text low high) piece
        → bytes.now ≢ piece ++ rest) }
{
    let (text, rest) = text_at(bytes)?;
    if !is_text(low, high, text) {
        return None;
    }
    if !is_utf8(text) {
        return None;
    }
    Some(rest)
}

/// Skips a key at the start of the bytes. Returns the rest.
fn skip_key(bytes: &[u8]) -> Option<&[u8]>
    ensures found { IfSome result (λ rest. (piece : List ℕ) × IsPartForm Part.Key piece
        × (bytes.now ≡ piece ++ rest.now)) }
    ensures none { IfNone result ((piece rest : List ℕ) → IsPartForm Part.Key piece → bytes.now ≢ piece ++ rest) }
{
    let (text, rest) = text_at(bytes)?;
    if is_key(text) { Some(rest) } else { None }
}

/// Skips a token at the start of the bytes. Returns the rest.
fn skip_token(bytes: &[u8]) -> Option<&[u8]>
    ensures found { IfSome result (λ rest. (piece : List ℕ) × IsPartForm Part.Token piece
        × (bytes.now ≡ piece ++ rest.now)) }
    ensures none { IfNone result ((piece rest : List ℕ) → IsPartForm Part.Token piece → bytes.now ≢ piece ++ rest) }
{
    let (text, rest) = text_at(bytes)?;
    if Token::read(text).is_some() {
        Some(rest)
    } else {
        None
    }
}

/// Skips a rating at the start of the bytes. Returns the rest.
fn skip_rating(bytes: &[u8]) -> Option<&[u8]>
    ensures found { IfSome result (λ rest. (piece : List ℕ) × IsPartForm Part.Rating piece
        × (bytes.now ≡ piece ++ rest.now)) }
    ensures none { IfNone result ((piece rest : List ℕ) → IsPartForm Part.Rating piece → bytes.now ≢ piece ++ rest) }
{
    let (text, rest) = text_at(bytes)?;
    if is_rating(text) { Some(rest) } else { None }
}

/// Skips special features at the start of the bytes. Returns the rest.
fn skip_features(bytes: &[u8]) -> Option<&[u8]>
    ensures found { IfSome result (λ rest. (piece : List ℕ) × IsPartForm Part.Features piece
        × (bytes.now ≡ piece ++ rest.now)) }
    ensures none { IfNone result ((piece rest : List ℕ) → IsPartForm Part.Features piece → bytes.now ≢ piece ++ rest) }
{
    let (text, rest) = text_at(bytes)?;
    if are_features(text) { Some(rest) } else { None }
}

/// Shows that each byte is below 256. The function has nothing to do.
fn bytes_values(bytes: &[u8])
    ensures { AreBytes bytes.now }
{}

/// Skips the form of at most so many bytes. Returns the rest.
fn skip_bytes(most: usize, bytes: &[u8]) -> Option<&[u8]>
    ensures found { IfSome result (λ rest. (piece : List ℕ) × IsPartForm (Part.Bytes most) piece
        × (bytes.now ≡ piece ++ rest.now)) }
    ensures none { IfNone result ((piece rest : List ℕ) → IsPartForm (Part.Bytes most) piece
        → bytes.now ≢ piece ++ rest) }
{
    let (text, rest) = text_at(bytes)?;
    bytes_values(text);
    if text.len() <= most { Some(rest) } else { None }
}

/// Skips a truth value at the start of the bytes. Returns the rest.
fn skip_flag(bytes: &[u8]) -> Option<&[u8]>
    ensures found { IfSome result (λ rest. (piece : List ℕ) × IsPartForm Part.Flag piece
        × (bytes.now ≡ piece ++ rest.now)) }
    ensures none { IfNone result ((piece rest : List ℕ) → IsPartForm Part.Flag piece → bytes.now ≢ piece ++ rest) }
{
    let (first, rest) = bytes.split_first()?;
    if *first <= 1 { Some(rest) } else { None }
}

/// Skips a truth value at the start of the bytes, if it is false. Returns the rest.
fn skip_unset(bytes: &[u8]) -> Option<&[u8]>
    ensures found { IfSome result (λ rest. (piece : List ℕ) × IsPartForm Part.Unset piece
        × (bytes.now ≡ piece ++ rest.now)) }
    ensures none { IfNone result ((piece rest : List ℕ) → IsPartForm Part.Unset piece → bytes.now ≢ piece ++ rest) }
{
    let (first, rest) = bytes.split_first()?;
    if *first == 0 { Some(rest) } else { None }
}

/// Skips a moment at the start of the bytes. Returns the rest.
fn skip_moment(bytes: &[u8]) -> Option<&[u8]>
    ensures found { IfSome result (λ rest. (piece : List ℕ) × IsPartForm Part.Moment piece
        × (bytes.now ≡ piece ++ rest.now)) }
    ensures none { IfNone result ((piece rest : List ℕ) → IsPartForm Part.Moment piece → bytes.now ≢ piece ++ rest) }
{
    if bytes.len() < 19 {
        return None;
    }
    let (text, rest) = bytes.split_at(19);
    let Ok(words) = std::str::from_utf8(text) else {
        return None;
    };
    match Moment::read(words) {
        Some(_) => Some(rest),
        None => None,
    }
}

/// Skips so many numbers of rows. Returns the rest.
fn skip_each(count: u32, bytes: &[u8]) -> Option<&[u8]>
    ensures found { IfSome result (λ rest. (ns : List ℕ) × (length ns ≡ count) × AreNumbers ns
        × (bytes.now ≡ form_of_each ns ++ rest.now)) }
    ensures none { IfNone result ((ns rest : List ℕ) → length ns ≡ count → AreNumbers ns
        → bytes.now ≢ form_of_each ns ++ rest) }
{
    let mut rest = bytes;
    for _ in 0..count {
        rest = skip_number(1, 4_294_967_295, rest)?;
    }
    Some(rest)
}

/// Skips the form of at most so many numbers of rows. Returns the rest.
fn skip_numbers(most: u32, bytes: &[u8]) -> Option<&[u8]>
    ensures found { IfSome result (λ rest. (piece : List ℕ) × IsPartForm (Part.Numbers most) piece
        × (bytes.now ≡ piece ++ rest.now)) }
    ensures none { IfNone result ((piece rest : List ℕ) → IsPartForm (Part.Numbers most) piece
        → bytes.now ≢ piece ++ rest) }
{
    let (count, rest) = number_at(bytes)?;
    if most < count {
        return None;
    }
    let rest = skip_each(count, rest)?;
    Some(rest)
}

/// Skips the form of an optional number, which is within the bounds if it is there. Returns the rest.
fn skip_optional(low: u32, high: u32, bytes: &[u8]) -> Option<&[u8]>
    ensures found { IfSome result (λ rest. (piece : List ℕ) × IsPartForm (Part.Optional low high) piece
        × (bytes.now ≡ piece ++ rest.now)) }
    ensures none { IfNone result ((piece rest : List ℕ) → IsPartForm (Part.Optional low high) piece
        → bytes.now ≢ piece ++ rest) }
{
    let (count, rest) = number_at(bytes)?;
    match count {
        0 => Some(rest),
        1 => skip_number(low, high, rest),
        _ => None,
    }
}

/// Skips a part at the start of the bytes. Returns the rest.
pub(crate) fn skip(part: Part, bytes: &[u8]) -> Option<&[u8]>
    ensures found { IfSome result (λ rest. (piece : List ℕ) × IsPartForm part piece × (bytes.now ≡ piece ++ rest.now)) }
    ensures none { IfNone result ((piece rest : List ℕ) → IsPartForm part piece → bytes.now ≢ piece ++ rest) }
{
    match part {
        Part::Number(low, high) => skip_number(low, high, bytes),
        Part::Text(low, high) => skip_text(low, high, bytes),
        Part::Key => skip_key(bytes),
        Part::Token => skip_token(bytes),
        Part::Rating => skip_rating(bytes),
        Part::Features => skip_features(bytes),
        Part::Bytes(most) => skip_bytes(most, bytes),
        Part::Flag => skip_flag(bytes),
        Part::Unset => skip_unset(bytes),
        Part::Moment => skip_moment(bytes),
        Part::Numbers(most) => skip_numbers(most, bytes),
        Part::Optional(low, high) => skip_optional(low, high, bytes),
    }
}

/// Returns whether the bytes are the forms of such parts, one after another.
fn is_form(parts: &[Part], bytes: &[u8]) -> bool
    ensures { IsTrue result ↔ IsForm parts.now bytes.now }
{
    let mut rest = bytes;
    for part in parts {
        match skip(*part, rest) {
            Some(more) => rest = more,
            None => return false,
        }
    }
    rest.is_empty()
}

/// Returns whether the bytes are a form of one of the lists of parts. The first byte is the list's place, counted from
/// 1, and the bytes after it are the parts.
pub(crate) fn is_one_of(forms: &[&[Part]], bytes: &[u8]) -> bool
    ensures { IsTrue result ↔ IsOneOf (map (λ parts. parts.now) forms.now) bytes.now }
{
    let Some((tag, rest)) = bytes.split_first() else {
        return false;
    };
    if *tag == 0 {
        return false;
    }
    match forms.get(*tag as usize - 1) {
        Some(parts) => is_form(parts, rest),
        None => false,
    }
}
