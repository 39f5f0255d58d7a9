ghost use Rattle.std.specs.Prelude.{◌≡◌, Some, None, IfOk, IfErr, option_map, string_bytes, codes};
ghost use Rattle.clap.specs.Words.{first_of};
ghost use Rattle.shop_types.specs.declared.line.Usage.TheVariants as usage;
ghost use Rattle.office_words.specs.Given.{key_given, rating_given, features_given, rule_of, rule_given};
ghost use Rattle.word_tables.specs.Given.{values_of, Reads, text_given, token_given};
ghost use Rattle.office_words.specs.Given.{number_given, row_given, rate_given, replacement_given, period_given, minutes_given};

use clap::ArgMatches;
use shop_types::{
    Amount, Features, Key, Minutes, Period, Rate, Rating, RowNumber, Rule, Text, Token, Usage,
};
use std::alloc::Global;
use word_tables::{owned, str_of};

// ---- what the options take, as their errors say it

const KEY: &str = "1 to 40 letters, digits and hyphens";

const TOKEN: &str = "32 digits of lower-case hexadecimal";

const RATING: &str = "G, PG, PG-13, R or NC-17";

const FEATURES: &str =
    "some of Trailers, Commentaries, Deleted Scenes and Behind the Scenes, in this order, with bare commas between";

const RULE: &str = "code or comment";

const ROW: &str = "a number, 1 to 4294967295";

const RATE: &str = "a price in cents, 0 to 9999";

const REPLACEMENT: &str = "a price in cents, 0 to 99999";

const PERIOD: &str = "days, 1 to 255";

const LENGTH: &str = "minutes, 1 to 65535";

/// Makes the error of an option whose value isn't of its kind. The text names the option and says what it takes.
fn misgiven(alloc: Global, id: &str, takes: &str) -> Usage {
    match format!(in alloc; "--{id}: {takes}") {
        Ok(text) => Usage::Words(text),
        Err(_) => Usage::Memory,
    }
}

/// Returns the value of the option `id`, if it has one of its kind.
pub(crate) fn of_kind<T>(alloc: Global, value: Option<T>, id: &str, takes: &str) -> Result<T, Usage>
    ensures { Reads result value }
{
    match value {
        Some(value) => Ok(value),
        None => Err(misgiven(alloc, id, takes)),
    }
}

/// Makes the error of an option whose text is too short, too long, or has a control character.
fn misgiven_text(alloc: Global, id: &str, low: usize, high: usize) -> Usage {
    match format!(in alloc; "--{id}: {low} to {high} bytes, none of them a control character") {
        Ok(text) => Usage::Words(text),
        Err(_) => Usage::Memory,
    }
}

// ---- as clap has them

fn u8_of(given: &ArgMatches<'_>, id: &str) -> Option<u8>
    ensures { result ≡ number_given 8 id.now (values_of given.now) }
{
    given.get_one::<u8>(id)
}

pub(crate) fn u16_of(given: &ArgMatches<'_>, id: &str) -> Option<u16>
    ensures { result ≡ number_given 16 id.now (values_of given.now) }
{
    given.get_one::<u16>(id)
}

pub(crate) fn u32_of(given: &ArgMatches<'_>, id: &str) -> Option<u32>
    ensures { result ≡ number_given 32 id.now (values_of given.now) }
{
    given.get_one::<u32>(id)
}

// ---- texts

pub(crate) fn text<const LOW: usize, const HIGH: usize>(
    alloc: Global,
    given: &ArgMatches<'_>,
    id: &str,
) -> Result<Text<LOW, HIGH>, Usage>
    ensures { Reads result (text_given LOW HIGH id.now (values_of given.now)) }
{
    let Some(text) = str_of(given, id) else {
        return Err(misgiven_text(alloc, id, LOW, HIGH));
    };
    match Text::read(owned(alloc, text)?) {
        Some(text) => Ok(text),
        None => Err(misgiven_text(alloc, id, LOW, HIGH)),
    }
}

pub(crate) fn key(alloc: Global, given: &ArgMatches<'_>) -> Result<Key, Usage>
    ensures { Reads result (key_given (values_of given.now)) }
{
    let Some(text) = str_of(given, "key") else {
        return Err(misgiven(alloc, "key", KEY));
    };
    of_kind(alloc, Key::read(owned(alloc, text)?), "key", KEY)
}

/// Reads a token.
fn read_token(given: &ArgMatches<'_>) -> Option<Token>
    ensures { result ≡ token_given (values_of given.now) }
{
    Token::read(str_of(given, "token")?.as_bytes())
}

pub(crate) fn token(alloc: Global, given: &ArgMatches<'_>) -> Result<Token, Usage>
    ensures { Reads result (token_given (values_of given.now)) }
{
    of_kind(alloc, read_token(given), "token", TOKEN)
}

/// Reads a film's rating.
fn read_rating(given: &ArgMatches<'_>) -> Option<Rating>
    ensures { result ≡ rating_given (values_of given.now) }
{
    Rating::read(str_of(given, "rating")?)
}

pub(crate) fn rating(alloc: Global, given: &ArgMatches<'_>) -> Result<Rating, Usage>
    ensures { Reads result (rating_given (values_of given.now)) }
{
    of_kind(alloc, read_rating(given), "rating", RATING)
}

/// Reads a film's features.
fn read_features(given: &ArgMatches<'_>) -> Option<Features>
    ensures { result ≡ features_given (values_of given.now) }
{
    Features::read(str_of(given, "features")?)
}

pub(crate) fn features(alloc: Global, given: &ArgMatches<'_>) -> Result<Features, Usage>
    ensures { Reads result (features_given (values_of given.now)) }
{
    of_kind(alloc, read_features(given), "features", FEATURES)
}

/// Returns the rule of this name.
fn rule_of(name: &str) -> Option<Rule>
    ensures { result ≡ rule_of name.now }
{
    match name {
        "code" => Some(Rule::ByCode),
        "comment" => Some(Rule::ByComment),
        _ => None,
    }
}

/// Reads the rule of balances.
fn read_rule(given: &ArgMatches<'_>) -> Option<Rule>
    ensures { result ≡ rule_given (values_of given.now) }
{
    rule_of(str_of(given, "rule")?)
}

pub(crate) fn rule(alloc: Global, given: &ArgMatches<'_>) -> Result<Rule, Usage>
    ensures { Reads result (rule_given (values_of given.now)) }
{
    of_kind(alloc, read_rule(given), "rule", RULE)
}

// ---- numbers

/// Reads the number of a row.
fn read_row<const KIND: u8>(given: &ArgMatches<'_>, id: &str) -> Option<RowNumber<KIND>>
    ensures { result ≡ row_given id.now (values_of given.now) }
{
    RowNumber::new(u32_of(given, id)?)
}

/// Returns the number of a row.
pub(crate) fn row<const KIND: u8>(
    alloc: Global,
    given: &ArgMatches<'_>,
    id: &str,
) -> Result<RowNumber<KIND>, Usage>
    ensures { Reads result (row_given id.now (values_of given.now)) }
{
    of_kind(alloc, read_row(given, id), id, ROW)
}

/// Reads a film's rate.
fn read_rate(given: &ArgMatches<'_>) -> Option<Rate>
    ensures { result ≡ rate_given (values_of given.now) }
{
    Rate::new(u32::from(u16_of(given, "rate")?))
}

pub(crate) fn rate(alloc: Global, given: &ArgMatches<'_>) -> Result<Rate, Usage>
    ensures { Reads result (rate_given (values_of given.now)) }
{
    of_kind(alloc, read_rate(given), "rate", RATE)
}

/// Reads a film's replacement cost.
fn read_replacement(given: &ArgMatches<'_>) -> Option<Amount>
    ensures { result ≡ replacement_given (values_of given.now) }
{
    Amount::new(u32_of(given, "replacement")?)
}

pub(crate) fn replacement(alloc: Global, given: &ArgMatches<'_>) -> Result<Amount, Usage>
    ensures { Reads result (replacement_given (values_of given.now)) }
{
    of_kind(alloc, read_replacement(given), "replacement", REPLACEMENT)
}

/// Reads a film's rental period.
fn read_period(given: &ArgMatches<'_>) -> Option<Period>
    ensures { result ≡ period_given (values_of given.now) }
{
    Period::new(u32::from(u8_of(given, "period")?))
}

pub(crate) fn period(alloc: Global, given: &ArgMatches<'_>) -> Result<Period, Usage>
    ensures { Reads result (period_given (values_of given.now)) }
{
    of_kind(alloc, read_period(given), "period", PERIOD)
}

/// Reads the length of a film, which may be left out.
fn read_minutes(given: &ArgMatches<'_>) -> Option<Option<Minutes>>
    ensures { result ≡ minutes_given (values_of given.now) }
{
    let Some(_) = str_of(given, "length") else {
        return Some(None);
    };
    Some(Some(Minutes::new(u32::from(u16_of(given, "length")?))?))
}

/// Returns the length of a film, which may be left out.
pub(crate) fn minutes(alloc: Global, given: &ArgMatches<'_>) -> Result<Option<Minutes>, Usage>
    ensures { Reads result (minutes_given (values_of given.now)) }
{
    of_kind(alloc, read_minutes(given), "length", LENGTH)
}
