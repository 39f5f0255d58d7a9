ghost use Rattle.std.specs.Prelude.{◌≡◌, ◌⊎◌, true, Some, None, IfOk, IfErr, IsTrue, map, string_bytes};
ghost use Rattle.clap.specs.Words.{found_of, rows_of, kind_of, fault_of, matches_of, subcommand_of, FailsBy, IsAmong, subcommand_rows_of};
ghost use Rattle.shop_types.specs.declared.line.Usage.TheVariants as usage;
ghost use Rattle.till_words.specs.CommandLine.{till_app};
ghost use Rattle.word_tables.specs.Given.{values_of, Reads};
ghost use Rattle.till_words.specs.Places.{office_words};
ghost use Rattle.till_words.specs.Places as places;
ghost use Rattle.till_words.specs.Line.{till_line_of, full_line_of, line_from, read_of, entered_act};
ghost use Rattle.till_words.specs.Usage as own;

use crate::commands::{SUBCOMMANDS, Subcommand, top_word};
use crate::named::word_place;
use crate::spoken::spoken_words;
use crate::usage::{
    helped, is_help_on, unknown_word, word_named, word_text, wrong_from, wrong_line,
};
use crate::words::{TillAct, TillLine};
use crate::{acts, commands, given, named};
use clap::error::ErrorKind;
use clap::{ArgMatches, Error};
use shop_types::Usage;
use std::alloc::{AllocError, Global};

/// Returns what clap finds in the words.
fn matches<'a>(alloc: Global, words: &'a [&'a str]) -> Result<ArgMatches<'a>, Error>
    ensures fails { FailsBy (fault_of till_app (map (λ s. s.now) words.now)) result }
    ensures ok { IfOk result (λ m. (rows_of (found_of m) ≡ matches_of till_app (map (λ s. s.now) words.now))
        × (subcommand_rows_of m ≡ subcommand_of till_app (map (λ s. s.now) words.now))) }
{
    commands::till(alloc)?.try_get_matches_from(words)
}

/// Returns how the words are to be said: help, if they ask for it, or what is wrong with them. In `named` each value
/// follows its option's name.
fn said_usage(
    alloc: Global,
    words: &[String],
    named: &[&str],
    error: &Error,
) -> Result<String, AllocError> {
    let place = word_place(words);
    let (before, rest) = named.split_at(place.min(named.len()));
    if let Some(word) = helped(words, &SUBCOMMANDS) {
        return word_text(alloc, word);
    }
    if error.kind() == ErrorKind::DisplayHelp {
        return match word_in(rest, &SUBCOMMANDS) {
            Some(word) => word_text(alloc, word),
            None => error.to_string(alloc),
        };
    }
    let top = top_word();
    if let Some(text) = wrong_from(alloc, top.options, before)? {
        return format!(in alloc; "{}\n{text}", top.usage);
    }
    match (rest, word_in(rest, &SUBCOMMANDS)) {
        ([_, values @ ..], Some(word)) => wrong_line(alloc, word, values),
        ([word, ..], None) => unknown_word(alloc, word, &SUBCOMMANDS),
        ([], _) => wrong_line(alloc, top, &[]),
    }
}

/// Returns the word of the table that the words begin with.
fn word_in(words: &[&str], table: &[Subcommand]) -> Option<Subcommand>
    ensures { result ≡ own.first_word table.now (map (λ s. s.now) words.now) }
{
    match words {
        [word, ..] => word_named(word, table),
        [] => None,
    }
}

/// Returns the fault of words that clap refuses, in the till's own words.
fn refused(alloc: Global, words: &[String], named: &[&str], error: &Error) -> Usage
    ensures { kind_of error.now ≡ ErrorKind.OutOfMemory → result ≡ usage.Memory }
{
    if error.kind() == ErrorKind::OutOfMemory {
        return Usage::Memory;
    }
    match said_usage(alloc, words, named, error) {
        Ok(text) => Usage::Words(text),
        Err(_) => Usage::Memory,
    }
}

/// Returns the fault of a value, with how its word is said before it.
fn with_usage(alloc: Global, named: &[&str], place: usize, fault: Usage) -> Usage
    ensures { fault ≡ usage.Memory → result ≡ usage.Memory }
{
    let (_, rest) = named.split_at(place.min(named.len()));
    match (fault, word_in(rest, &SUBCOMMANDS)) {
        (Usage::Words(text), Some(word)) => match format!(in alloc; "{}\n{text}", word.usage) {
            Ok(text) => Usage::Words(text),
            Err(_) => Usage::Memory,
        },
        (fault, _) => fault,
    }
}

/// Returns what the words ask for, from what clap found in them.
fn entered(alloc: Global, words: &[String], found: &ArgMatches<'_>) -> Result<TillAct, Usage>
    ensures { Reads result (entered_act (office_words (map string_bytes words.now)) (subcommand_rows_of found.now)) }
{
    match found.subcommand() {
        Some((name, inner)) => acts::act(alloc, words, name, inner),
        None => Ok(TillAct::Prompt),
    }
}

/// Returns the line for words that clap accepts.
fn line(alloc: Global, words: &[String], found: &ArgMatches<'_>) -> Result<TillLine, Usage>
    ensures { Reads result (line_from (office_words (map string_bytes words.now)) (values_of found.now)
        (subcommand_rows_of found.now)) }
{
    let staff = given::of_kind(alloc, given::optional_row(found, "staff"), given::NUMBER)?;
    let drawer = given::of_kind(alloc, given::optional_row(found, "drawer"), given::NUMBER)?;
    let book = given::optional_text(alloc, found, "book")?;
    let act = entered(alloc, words, found)?;
    Ok(TillLine {
        book,
        is_json: given::flag(found, "json"),
        is_sure: given::flag(found, "yes"),
        staff,
        drawer,
        act,
    })
}

/// Returns the line for words that clap accepts. A fault has how its word is said before it.
fn told_line(
    alloc: Global,
    words: &[String],
    named: &[&str],
    found: &ArgMatches<'_>,
) -> Result<TillLine, Usage>
    ensures { Reads result (line_from (office_words (map string_bytes words.now)) (values_of found.now)
        (subcommand_rows_of found.now)) }
{
    match line(alloc, words, found) {
        Ok(line) => Ok(line),
        Err(fault) => Err(with_usage(alloc, named, word_place(words), fault)),
    }
}

/// Returns the line for the words. In `named` each value follows its option's name.
fn read_named(alloc: Global, words: &[String], named: &[&str]) -> Result<TillLine, Usage>
    ensures { Reads result (read_of (office_words (map string_bytes words.now)) (map (λ s. s.now) named.now)) }
{
    match matches(alloc, named) {
        Ok(found) => told_line(alloc, words, named, &found),
        Err(error) => Err(refused(alloc, words, named, &error)),
    }
}

/// Reports whether clap finds that the words ask for help.
fn is_help(alloc: Global, named: &[&str]) -> bool
    ensures { result ≡ true → IsAmong ErrorKind.DisplayHelp (fault_of till_app (map (λ s. s.now) named.now)) }
{
    match matches(alloc, named) {
        Ok(_) => false,
        Err(error) => error.kind() == ErrorKind::DisplayHelp,
    }
}

/// Reads the line that words are which are typed in full.
fn read_full(alloc: Global, words: &[String]) -> Result<TillLine, Usage>
    ensures { Reads result (full_line_of (map string_bytes words.now)) }
{
    match named::named_words(alloc, words) {
        Ok(named) => read_named(alloc, words, named.as_slice()),
        Err(_) => Err(Usage::Memory),
    }
}

/// Reads the line that the words are, without the program's name. Several words that are looked for are one text. A
/// number or a copy's label alone asks for that copy, and a customer's label for that customer. If the words are no
/// line, fails with `Usage::Words`, whose text says how to give the words. If there is no memory, fails with
/// `Usage::Memory`.
pub fn read_till_words(alloc: Global, words: &[String]) -> Result<TillLine, Usage>
    ensures ok { IfOk result (λ line. till_line_of (map string_bytes words.now) ≡ Some line) }
    ensures refused { IfErr result (λ e. ¬ (e ≡ usage.Memory) → till_line_of (map string_bytes words.now) ≡ None) }
{
    match spoken_words(alloc, words) {
        Ok(spoken) => read_full(alloc, spoken.as_slice()),
        Err(_) => Err(Usage::Memory),
    }
}

/// Reports whether the words ask for help: by `--help` or `-h`, or on a word by `help WORD`. If they do,
/// `read_till_words` fails with the help as its text.
pub fn asks_for_help(alloc: Global, words: &[String]) -> Result<bool, AllocError>
    ensures { IfOk result (λ asks. asks ≡ true → IsAmong ErrorKind.DisplayHelp
        (fault_of till_app (places.named_words (map string_bytes words.now)))
        ⊎ IsTrue (own.is_help_on (map string_bytes words.now))) }
{
    if is_help_on(words) && helped(words, &SUBCOMMANDS).is_some() {
        return Ok(true);
    }
    let named = named::named_words(alloc, words)?;
    Ok(is_help(alloc, named.as_slice()))
}

/// Returns the help on a till's words.
pub fn help_text(alloc: Global) -> Result<String, AllocError> {
    commands::till(alloc)?.render_help()
}
