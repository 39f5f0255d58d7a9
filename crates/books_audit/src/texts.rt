//! Texts judged by their bytes.

ghost use Rattle.std.specs.Prelude.{◌≡◌, ◌↔◌, IsTrue, IsUtf8};
ghost use Rattle.std.specs.List.{list_all};
ghost use Rattle.std.specs.Str.{bytes_eq};
ghost use Rattle.shop_types.specs.Texts.{is_text, is_printed, is_key, is_key_byte};
ghost use Rattle.shop_schema.specs.RowValues.{IsRating, IsFeatures};

use shop_types::Features;

fn is_printed_byte(b: u8) -> bool
    ensures { result ≡ is_printed b }
{
    b >= 32 && b != 127
}

fn all_printed(bytes: &[u8]) -> bool
    ensures { result ≡ list_all is_printed bytes.now }
{
    bytes.iter().all(|b| is_printed_byte(*b))
}

/// Returns whether the number of bytes is within the bounds, and there is no control byte.
pub(crate) fn is_text(low: usize, high: usize, bytes: &[u8]) -> bool
    ensures { result ≡ is_text low high bytes.now }
{
    low <= bytes.len() && bytes.len() <= high && all_printed(bytes)
}

/// Returns whether the bytes are a text.
pub(crate) fn is_utf8(bytes: &[u8]) -> bool
    ensures { IsTrue result ↔ IsUtf8 bytes.now }
{
    match std::str::from_utf8(bytes) {
        Ok(_) => true,
        Err(_) => false,
    }
}

fn is_byte_of_key(b: u8) -> bool
    ensures { result ≡ is_key_byte b }
{
    b.is_ascii_alphanumeric() || b == b'-'
}

fn all_of_key(bytes: &[u8]) -> bool
    ensures { result ≡ list_all is_key_byte bytes.now }
{
    bytes.iter().all(|b| is_byte_of_key(*b))
}

/// Returns whether the bytes are a key, or the name of a lot.
pub(crate) fn is_key(bytes: &[u8]) -> bool
    ensures { result ≡ is_key bytes.now }
{
    1 <= bytes.len() && bytes.len() <= 40 && all_of_key(bytes)
}

/// Returns whether the text is a rating.
pub(crate) fn is_rating(text: &[u8]) -> bool
    ensures { IsTrue result ↔ IsRating text.now }
{
    text == b"G".as_slice()
        || text == b"PG".as_slice()
        || text == b"PG-13".as_slice()
        || text == b"R".as_slice()
        || text == b"NC-17".as_slice()
}

/// Returns whether the text is a list of special features.
pub(crate) fn are_features(text: &[u8]) -> bool
    ensures { IsTrue result ↔ IsFeatures text.now }
{
    match std::str::from_utf8(text) {
        Ok(words) => Features::read(words).is_some(),
        Err(_) => false,
    }
}
