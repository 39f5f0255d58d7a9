//! What is asked of the drawer.

ghost use Rattle.std.specs.Prelude.{◌≡◌};
ghost use Rattle.word_tables.specs.Given.{values_of, Reads};
ghost use Rattle.till_words.specs.Days.{counted_given, asked_of, drawer_of};

use crate::words::{DayText, Drawer};
use crate::{given, texts};
use clap::ArgMatches;
use shop_types::Usage;
use std::alloc::Global;
use word_tables::str_of;

/// The reason if the sum isn't one.
const COUNTED: &str = "a sum is in dollars, from 0 to 99999.99: 412.50, 412 or 0.50";

/// The reason if both are given.
const BOTH: &str = "say day, or day 2026-03-09, or day --count 412.50";

/// Returns the counted cents, which may be left out.
fn counted(given: &ArgMatches<'_>) -> Option<Option<u32>>
    ensures { result ≡ counted_given (values_of given.now) }
{
    match str_of(given, "count") {
        Some(text) => Some(Some(texts::cents_of(text)?)),
        None => Some(None),
    }
}

/// Returns what is asked of the drawer. Finds none if both a date and a sum are given.
fn asked(date: Option<DayText>, counted: Option<u32>) -> Option<Drawer>
    ensures { result ≡ asked_of date counted }
{
    match (date, counted) {
        (None, None) => Some(Drawer::Since),
        (None, Some(cents)) => Some(Drawer::Close(cents)),
        (Some(date), None) => Some(Drawer::Closings(date)),
        (Some(_), Some(_)) => None,
    }
}

/// Returns what the word `day` asks of the drawer.
pub(crate) fn drawer(alloc: Global, given: &ArgMatches<'_>) -> Result<Drawer, Usage>
    ensures { Reads result (drawer_of (values_of given.now)) }
{
    let date = given::optional_text(alloc, given, "date")?;
    let counted = given::of_kind(alloc, counted(given), COUNTED)?;
    given::of_kind(alloc, asked(date, counted), BOTH)
}
