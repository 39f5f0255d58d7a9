ghost use Rattle.std.specs.Prelude.{◌≡◌, Some, None, IfOk, IfErr, option_map, string_bytes, codes};
ghost use Rattle.std.specs.Result.{IsErrAnd};
ghost use Rattle.clap.specs.Words.{first_of};
ghost use Rattle.shop_types.specs.declared.line.Usage.TheVariants as usage;
ghost use Rattle.till_words.specs.Given.{optional_text_given, lot_given, flag_given};
ghost use Rattle.word_tables.specs.Given.{values_of, Reads, text_of, text_given, token_given};
ghost use Rattle.till_words.specs.Given.{row_given, optional_row_given, amount_given, short_list, numbers_given, any_numbers_given};
ghost use Rattle.word_tables.specs.Given.{with_value};

use crate::texts;
use clap::ArgMatches;
use shop_types::{Amount, LotName, Numbers, RowNumber, Text, Token, Usage};
use std::alloc::{AllocError, Global};
use word_tables::{owned, str_of, unread};

// ---- the texts for values that aren't of their kinds

pub(crate) const NUMBER: &str =
    "a number is written in digits, from 1 to 4294967295; an amount is in dollars, from 0 to 999.99";

pub(crate) const LIST: &str = "a list is numbers with commas between them: 1,2,3";

pub(crate) const TEXT: &str = "a text is too long, or empty, or has a control character";

pub(crate) const LOT: &str = "a lot's name is 1 to 40 letters, digits and hyphens";

pub(crate) const TOKEN: &str = "a token is 32 digits of lower-case hexadecimal";

pub(crate) const RETURN: &str = "a return is of a copy, or of a rental (--rental N)";

pub(crate) const WHOSE: &str =
    "a book is one member of staff's (--staff N) or head office's (--office)";

pub(crate) const ZONE: &str =
    "a till has a zone: --zone America/Edmonton, --zone UTC-07:00 or --zone UTC";

pub(crate) const PAYMENT: &str =
    "a payment is of a customer, and in dollars, from 0 to 999.99: 4.99, 5 or 0.50";

/// Returns the value, or fails with the reason if there is none.
pub(crate) fn of_kind<T>(alloc: Global, value: Option<T>, why: &str) -> Result<T, Usage>
    ensures { Reads result value }
{
    match value {
        Some(value) => Ok(value),
        None => Err(unread(alloc, why)),
    }
}

// ---- texts

fn text_of<const LOW: usize, const HIGH: usize>(
    alloc: Global,
    text: &str,
) -> Result<Text<LOW, HIGH>, Usage>
    ensures { Reads result (text_of LOW HIGH text.now) }
{
    of_kind(alloc, Text::read(owned(alloc, text)?), TEXT)
}

pub(crate) fn text<const LOW: usize, const HIGH: usize>(
    alloc: Global,
    given: &ArgMatches<'_>,
    id: &str,
) -> Result<Text<LOW, HIGH>, Usage>
    ensures { Reads result (text_given LOW HIGH id.now (values_of given.now)) }
{
    match str_of(given, id) {
        Some(text) => text_of(alloc, text),
        None => Err(unread(alloc, TEXT)),
    }
}

/// Returns a text that may be left out.
pub(crate) fn optional_text<const LOW: usize, const HIGH: usize>(
    alloc: Global,
    given: &ArgMatches<'_>,
    id: &str,
) -> Result<Option<Text<LOW, HIGH>>, Usage>
    ensures { Reads result (optional_text_given LOW HIGH id.now (values_of given.now)) }
{
    match str_of(given, id) {
        Some(text) => Ok(Some(text_of(alloc, text)?)),
        None => Ok(None),
    }
}

pub(crate) fn lot(alloc: Global, given: &ArgMatches<'_>) -> Result<LotName, Usage>
    ensures { Reads result (lot_given (values_of given.now)) }
{
    match str_of(given, "lot") {
        Some(text) => of_kind(alloc, LotName::read(owned(alloc, text)?), LOT),
        None => Err(unread(alloc, LOT)),
    }
}

pub(crate) fn token(given: &ArgMatches<'_>) -> Option<Token>
    ensures { result ≡ token_given (values_of given.now) }
{
    Token::read(str_of(given, "token")?.as_bytes())
}

/// Reports whether the option is given.
pub(crate) fn flag(given: &ArgMatches<'_>, id: &str) -> bool
    ensures { result ≡ flag_given id.now (values_of given.now) }
{
    match str_of(given, id) {
        Some(text) => text == "true",
        None => false,
    }
}

// ---- numbers

/// Returns the number of a row.
pub(crate) fn row<const KIND: u8>(given: &ArgMatches<'_>, id: &str) -> Option<RowNumber<KIND>>
    ensures { result ≡ row_given id.now (values_of given.now) }
{
    RowNumber::read(str_of(given, id)?.as_bytes())
}

/// Returns the number of a row, which may be left out.
pub(crate) fn optional_row<const KIND: u8>(
    given: &ArgMatches<'_>,
    id: &str,
) -> Option<Option<RowNumber<KIND>>>
    ensures { result ≡ optional_row_given id.now (values_of given.now) }
{
    match str_of(given, id) {
        Some(text) => Some(Some(RowNumber::read(text.as_bytes())?)),
        None => Some(None),
    }
}

pub(crate) fn amount(given: &ArgMatches<'_>) -> Option<Amount>
    ensures { result ≡ amount_given (values_of given.now) }
{
    Amount::new(texts::cents_of(str_of(given, "amount")?)?)
}

/// Returns the list, if it was read and isn't too long.
fn listed<const KIND: u8>(
    alloc: Global,
    read: Result<Option<Vec<RowNumber<KIND>>>, AllocError>,
) -> Result<Numbers<KIND>, Usage>
    ensures ok { IfOk read.entry (λ found. Reads result (with_value (option_map (λ v. v.items) found) short_list)) }
    ensures memory { IfErr read.entry (λ _. IsErrAnd result (λ e. e ≡ usage.Memory)) }
{
    match read {
        Ok(Some(numbers)) => of_kind(alloc, Numbers::new(numbers), LIST),
        Ok(None) => Err(unread(alloc, LIST)),
        Err(_) => Err(Usage::Memory),
    }
}

pub(crate) fn numbers<const KIND: u8>(
    alloc: Global,
    given: &ArgMatches<'_>,
    id: &str,
) -> Result<Numbers<KIND>, Usage>
    ensures { Reads result (numbers_given id.now (values_of given.now)) }
{
    match str_of(given, id) {
        Some(text) => listed(alloc, texts::numbers_of(alloc, text)),
        None => Err(unread(alloc, LIST)),
    }
}

/// Returns a list that may be empty.
pub(crate) fn any_numbers<const KIND: u8>(
    alloc: Global,
    given: &ArgMatches<'_>,
    id: &str,
) -> Result<Numbers<KIND>, Usage>
    ensures { Reads result (any_numbers_given id.now (values_of given.now)) }
{
    match str_of(given, id) {
        Some(text) => listed(alloc, texts::any_numbers_of(alloc, text)),
        None => Err(unread(alloc, LIST)),
    }
}
