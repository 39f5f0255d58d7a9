//! Moments, days and spans of time in words.

ghost use Rattle.std.specs.Prelude.{◌≡◌, ◌≤◌, ◌<◌, ◌+◌, ℕ, length, slice_index, codes, IfOk, string_bytes};
ghost use Rattle.shop_types.specs.Moments.{IsDigits};
ghost use Rattle.till_shows.specs.Times.{month_name, day_text, clock_text, moment_text, counted_text, age_text};
ghost use Rattle.till_shows.specs.Times.{plural_text};

use shop_types::Moment;
use std::alloc::{AllocError, Global};

fn month_name(month: u8) -> &'static str
    ensures { result.now ≡ month_name month }
{
    match month {
        1 => "January",
        2 => "February",
        3 => "March",
        4 => "April",
        5 => "May",
        6 => "June",
        7 => "July",
        8 => "August",
        9 => "September",
        10 => "October",
        11 => "November",
        _ => "December",
    }
}

/// Returns the number that the two digits at `at` write.
fn pair(text: &[u8], at: usize) -> u8
    requires { at + 1 < length text.now }
    ensures { (n : ℕ) → IsDigits n (slice_index text.now at) (slice_index text.now (at + 1)) → result ≡ n }
{
    let tens = text[at];
    let ones = text[at + 1];
    tens.saturating_sub(48) % 10 * 10 + ones.saturating_sub(48) % 10
}

/// Returns the moment's day in words: `1 March 2026`.
pub fn day_words(alloc: Global, moment: Moment) -> Result<String, AllocError>
    ensures { IfOk result (λ s. string_bytes s ≡ day_text moment) }
{
    let text = moment.text();
    let day = pair(text.as_slice(), 8);
    let (month, year) = (month_name(moment.month()), moment.year());
    format!(in alloc; "{day} {month} {year}")
}

/// Returns the moment's time of day to the minute: `10:05`.
fn clock(alloc: Global, moment: Moment) -> Result<String, AllocError>
    ensures { IfOk result (λ s. string_bytes s ≡ clock_text moment) }
{
    let text = moment.text();
    let hour = pair(text.as_slice(), 11);
    let minute = pair(text.as_slice(), 14);
    format!(in alloc; "{}{}:{}{}", hour / 10, hour % 10, minute / 10, minute % 10)
}

/// Returns the moment in words, to the minute: `1 March 2026, 10:05`.
pub fn moment_words(alloc: Global, moment: Moment) -> Result<String, AllocError>
    ensures { IfOk result (λ s. string_bytes s ≡ moment_text moment) }
{
    let day = day_words(alloc, moment)?;
    let clock = clock(alloc, moment)?;
    format!(in alloc; "{day}, {clock}")
}

/// Returns the ending of a word for this count: `s`, or nothing for 1.
fn plural(count: u64) -> &'static str
    ensures { result.now ≡ plural_text count }
{
    if count == 1 { "" } else { "s" }
}

/// Returns the count and the word, in the plural unless the count is 1.
pub(crate) fn counted(alloc: Global, count: u64, word: &str) -> Result<String, AllocError>
    ensures { IfOk result (λ s. string_bytes s ≡ counted_text count word.now) }
{
    let plural = plural(count);
    format!(in alloc; "{count} {word}{plural}")
}

/// Returns a span of seconds in words: `3 seconds`, `12 minutes`, `2 hours`, `5 days`. Uses the largest unit that fits
/// at least once, and leaves the rest out.
pub fn age_words(alloc: Global, seconds: u64) -> Result<String, AllocError>
    ensures { IfOk result (λ s. string_bytes s ≡ age_text seconds) }
{
    let (count, word) = match seconds {
        0..=59 => (seconds, "second"),
        60..=3_599 => (seconds / 60, "minute"),
        3_600..=86_399 => (seconds / 3_600, "hour"),
        _ => (seconds / 86_400, "day"),
    };
    counted(alloc, count, word)
}
