//! Labels of copies and customers, as a scanner reads them.

ghost use Rattle.std.specs.Prelude.{◌≡◌, ◌<◌};
ghost use Rattle.till_words.specs.Labels as spec;

use shop_types::RowNumber;

/// The letter of a copy's label.
pub(crate) const COPY: u8 = b'C';

/// The letter of a customer's label.
pub(crate) const CUSTOMER: u8 = b'K';

/// Reports whether the text is a number from 1 on.
pub(crate) fn is_number(text: &[u8]) -> bool
    ensures { result ≡ spec.is_number text.now }
{
    let number: Option<RowNumber<0>> = RowNumber::read(text);
    number.is_some()
}

/// Reports whether the text is the letter, and a number after it.
pub(crate) fn is_labelled(letter: u8, text: &[u8]) -> bool
    ensures { result ≡ spec.is_labelled letter text.now }
{
    match text {
        [first, digits @ ..] => *first == letter && is_number(digits),
        [] => false,
    }
}

/// Returns the number of a label with this letter. Any other text stays as it is.
pub(crate) fn unlabelled(letter: u8, text: &str) -> &str
    requires { letter < 128 }
    ensures { result.now ≡ spec.unlabelled letter text.now }
{
    let Some(digits) = text.strip_prefix(letter as char) else {
        return text;
    };
    if is_number(digits.as_bytes()) {
        digits
    } else {
        text
    }
}

/// Returns the value for this option: of a label that is wanted there the number.
pub(crate) fn value_for<'a>(name: &str, word: &'a str) -> &'a str
    ensures { result.now ≡ spec.value_for name.now word.entry.now }
{
    match name {
        "--copy" => unlabelled(COPY, word),
        "--customer" => unlabelled(CUSTOMER, word),
        _ => word,
    }
}
