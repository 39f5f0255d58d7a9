ghost use Rattle.std.specs.Prelude.{◌≡◌, Some, None, IfOk, IfErr, map, option_map, string_bytes, codes};
ghost use Rattle.clap.specs.Words.{found_of, rows_of, first_of, kind_of, fault_of, matches_of, subcommand_of, FailsBy, subcommand_rows_of};
ghost use Rattle.shop_types.specs.Lines.{seen_line};
ghost use Rattle.shop_types.specs.declared.line.Usage.TheVariants as usage;
ghost use Rattle.office_words.specs.CommandLine.{office_app};
ghost use Rattle.word_tables.specs.Given.{values_of};
ghost use Rattle.office_words.specs.Line.{line_of, line_from};

use crate::{acts, commands};
use clap::error::ErrorKind;
use clap::{ArgMatches, Error};
use shop_types::{Line, OfficeWords, Usage};
use std::alloc::Global;
use word_tables::{owned, str_of, unread};

/// Head office's words as `clap` reads them.
#[derive(Clone, Copy)]
pub struct ClapWords {
    /// Where the texts of a line are kept.
    pub alloc: Global,
}

/// Returns what clap finds in the words.
fn matches<'a>(alloc: Global, words: &'a [String]) -> Result<ArgMatches<'a>, Error>
    ensures fails { FailsBy (fault_of office_app (map string_bytes words.now)) result }
    ensures ok { IfOk result (λ m. (rows_of (found_of m) ≡ matches_of office_app (map string_bytes words.now))
        × (subcommand_rows_of m ≡ subcommand_of office_app (map string_bytes words.now))) }
{
    commands::office(alloc)?.try_get_matches_from(words)
}

/// Returns what clap says of words that it refuses.
fn refused(alloc: Global, error: &Error) -> Usage
    ensures { kind_of error.now ≡ ErrorKind.OutOfMemory → result ≡ usage.Memory }
{
    if error.kind() == ErrorKind::OutOfMemory {
        return Usage::Memory;
    }
    match error.to_string(alloc) {
        Ok(text) => Usage::Words(text),
        Err(_) => Usage::Memory,
    }
}

/// Returns the name of the chain's file.
fn file(alloc: Global, given: &ArgMatches<'_>) -> Result<Option<String>, Usage>
    ensures ok { IfOk result (λ db. option_map string_bytes db ≡ first_of (codes "db") (values_of given.now)) }
    ensures memory { IfErr result (λ e. e ≡ usage.Memory) }
{
    match str_of(given, "db") {
        Some(name) => Ok(Some(owned(alloc, name)?)),
        None => Ok(None),
    }
}

/// Returns the line of words that clap takes.
fn line(
    alloc: Global,
    given: &ArgMatches<'_>,
    name: &str,
    inner: &ArgMatches<'_>,
) -> Result<Line, Usage>
    ensures ok { IfOk result (λ line. line_from (values_of given.now) (Some (name.now, values_of inner.now))
        ≡ Some (seen_line line)) }
    ensures refused { IfErr result (λ e. ¬ (e ≡ usage.Memory)
        → line_from (values_of given.now) (Some (name.now, values_of inner.now)) ≡ None) }
{
    let db = file(alloc, given)?;
    let act = acts::act(alloc, name, inner)?;
    Ok(Line { db, act })
}

/// Returns the line that the words are, without the program's name. If the words are none, fails with `Usage::Words`,
/// with the text that says how words are given. If out of memory, fails with `Usage::Memory`. `docs/REQUESTS.md` lists
/// the words.
pub fn read_words(alloc: Global, words: &[String]) -> Result<Line, Usage>
    ensures ok { IfOk result (λ line. line_of (map string_bytes words.now) ≡ Some (seen_line line)) }
    ensures refused { IfErr result (λ e. ¬ (e ≡ usage.Memory) → line_of (map string_bytes words.now) ≡ None) }
{
    let matches = match matches(alloc, words) {
        Ok(matches) => matches,
        Err(error) => return Err(refused(alloc, &error)),
    };
    let Some((name, inner)) = matches.subcommand() else {
        return Err(unread(alloc, acts::NO_COMMAND));
    };
    line(alloc, &matches, name, inner)
}

impl OfficeWords for ClapWords {
    ghost meaning = { λ _ words. line_of words };

    fn read(&self, words: &[String]) -> Result<Line, Usage> {
        read_words(self.alloc, words)
    }
}
