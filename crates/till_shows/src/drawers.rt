//! What is in the drawer, and how it was closed, as lines.

ghost use Rattle.std.specs.Prelude.{◌≡◌, IfOk, string_bytes};
ghost use Rattle.till_shows.specs.Drawers.{since_text, came_text, taken_text, all_text, difference_text, counting_text, closing_text, not_closed_text};

use crate::cents::amount;
use crate::moments::{counted, moment_words};
use shop_types::{Moment, StaffNo};
use std::alloc::{AllocError, Global};

/// Returns since when the drawer counts: the last closing's moment, if there is one.
fn since(alloc: Global, last: Option<Moment>) -> Result<String, AllocError>
    ensures { IfOk result (λ s. string_bytes s ≡ since_text last) }
{
    match last {
        None => String::from_str(alloc, "since this book was made"),
        Some(last) => {
            let at = moment_words(alloc, last)?;
            format!(in alloc; "since {at}")
        }
    }
}

/// Returns what came since the last closing: `since 8 March 2026, 22:00: 5 rents, 3 returns, 1 refused, 0 waiting`.
pub fn came_line(
    alloc: Global,
    last: Option<Moment>,
    rents: u64,
    returns: u64,
    refused: u64,
    waiting: u32,
) -> Result<String, AllocError>
    ensures { IfOk result (λ s. string_bytes s ≡ came_text last rents returns refused waiting) }
{
    let since = since(alloc, last)?;
    let rents = counted(alloc, rents, "rent")?;
    let returns = counted(alloc, returns, "return")?;
    format!(in alloc; "{since}: {rents}, {returns}, {refused} refused, {waiting} waiting")
}

/// Returns what a member of staff took: `staff 1 took $14.97`.
pub fn taken_line(alloc: Global, staff: StaffNo, cents: u64) -> Result<String, AllocError>
    ensures { IfOk result (λ s. string_bytes s ≡ taken_text staff cents) }
{
    let sum = amount(alloc, cents)?;
    format!(in alloc; "staff {} took {sum}", staff.get())
}

/// Returns what all members of staff took: `in all $19.97`.
pub fn all_line(alloc: Global, cents: u64) -> Result<String, AllocError>
    ensures { IfOk result (λ s. string_bytes s ≡ all_text cents) }
{
    let sum = amount(alloc, cents)?;
    format!(in alloc; "in all {sum}")
}

/// Returns how far what was counted is from what was expected: `no difference`, `$0.03 too much`, or `$0.05 missing`.
fn difference(alloc: Global, expected: u64, counted: u64) -> Result<String, AllocError>
    ensures { IfOk result (λ s. string_bytes s ≡ difference_text expected counted) }
{
    if counted == expected {
        return String::from_str(alloc, "no difference");
    }
    if expected < counted {
        let over = amount(alloc, counted - expected)?;
        return format!(in alloc; "{over} too much");
    }
    let short = amount(alloc, expected - counted)?;
    format!(in alloc; "{short} missing")
}

/// Returns what was expected and what was counted: `expected $19.97, counted $20.00, $0.03 too much`.
fn counting(alloc: Global, expected: u64, counted: u64) -> Result<String, AllocError>
    ensures { IfOk result (λ s. string_bytes s ≡ counting_text expected counted) }
{
    let difference = difference(alloc, expected, counted)?;
    let expected = amount(alloc, expected)?;
    let counted = amount(alloc, counted)?;
    format!(in alloc; "expected {expected}, counted {counted}, {difference}")
}

/// Returns a closing: `closed 9 March 2026, 22:00: expected $19.97, counted $20.00, $0.03 too much`.
pub fn closing_line(
    alloc: Global,
    at: Moment,
    expected: u64,
    counted: u64,
) -> Result<String, AllocError>
    ensures { IfOk result (λ s. string_bytes s ≡ closing_text at expected counted) }
{
    let counting = counting(alloc, expected, counted)?;
    let at = moment_words(alloc, at)?;
    format!(in alloc; "closed {at}: {counting}")
}

/// Returns that the drawer wasn't closed on a day, which is written as it was typed.
pub fn not_closed_line(alloc: Global, day: &str) -> Result<String, AllocError>
    ensures { IfOk result (λ s. string_bytes s ≡ not_closed_text day.now) }
{
    format!(in alloc; "the drawer wasn't closed on {day}")
}
