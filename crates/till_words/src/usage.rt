//! Says in the till's own words how a word is said, and what is wrong with a line.

ghost use Rattle.std.specs.Prelude.{◌≡◌, ◌++◌, Some, None, IfOk, map, option_map, string_bytes, codes, is_some};
ghost use Rattle.std.specs.List.{join_by};
ghost use Rattle.till_words.specs.Usage as spec;

use crate::commands::Subcommand;
use crate::labels::{COPY, CUSTOMER, is_labelled, is_number};
use crate::named::{awaits_value, is_option, option_name, word_place};
use crate::options::Kind;
use std::alloc::{AllocError, Global};
use strsim::levenshtein;

// ---- the table

/// Returns the first word of this name.
pub(crate) fn word_named(name: &str, words: &[Subcommand]) -> Option<Subcommand>
    ensures { result ≡ spec.word_named name.now words.now }
{
    for word in words {
        if word.name == name {
            return Some(*word);
        }
    }
    None
}

/// Reports whether at most two edits make the word's name of the text.
fn is_near(alloc: Global, text: &str, word: Subcommand) -> Result<bool, AllocError>
    ensures { IfOk result (λ is. is ≡ spec.is_near text.now word) }
{
    Ok(levenshtein(alloc, text, word.name)? <= 2)
}

/// Returns the names of the words that at most two edits make of the text.
fn near_names(
    alloc: Global,
    text: &str,
    words: &[Subcommand],
) -> Result<Vec<&'static str>, AllocError>
    ensures { IfOk result (λ names. map (λ s. s.now) names.items ≡ spec.near_names text.now words.now) }
{
    let mut names = Vec::new(alloc);
    for word in words {
        if is_near(alloc, text, *word)? {
            names.push(word.name)?;
        }
    }
    Ok(names)
}

/// Returns the name of an option without its hyphens.
fn bare_name(option: &str) -> &[u8]
    ensures { result.now ≡ spec.bare_name option.now }
{
    match option_name(option).as_bytes() {
        [_, _, name @ ..] => name,
        _ => &[],
    }
}

/// Returns the option of this name.
fn option_named(name: &[u8], options: &[(&'static str, Kind)]) -> Option<(&'static str, Kind)>
    ensures { result ≡ spec.option_named name.now options.now }
{
    for option in options {
        if option.0.as_bytes() == name {
            return Some(*option);
        }
    }
    None
}

impl Kind {
    /// Reports whether the value is a number from 1 on.
    fn is_row(self) -> bool
        ensures { result ≡ spec.is_row self }
    {
        match self {
            Kind::Row | Kind::OptionalRow | Kind::DefaultRow(_) => true,
            Kind::Text | Kind::OptionalText | Kind::DefaultText(_) | Kind::Flag => false,
        }
    }

    /// Reports whether the option must be there.
    fn is_wanted(self) -> bool
        ensures { result ≡ spec.is_wanted self }
    {
        match self {
            Kind::Row | Kind::Text => true,
            Kind::OptionalRow | Kind::DefaultRow(_) => false,
            Kind::OptionalText | Kind::DefaultText(_) | Kind::Flag => false,
        }
    }

    /// Returns what comes after the option.
    fn text(self) -> &'static str
        ensures { result.now ≡ spec.kind_text self }
    {
        match self {
            Kind::Text => "a text",
            Kind::OptionalText | Kind::DefaultText(_) => "a text, which may be left out",
            Kind::Row => "a number from 1 on",
            Kind::OptionalRow | Kind::DefaultRow(_) => "a number from 1 on, which may be left out",
            Kind::Flag => "without a value",
        }
    }
}

// ---- help on a word

/// Returns the lines on the options.
fn option_lines(alloc: Global, options: &[(&'static str, Kind)]) -> Result<String, AllocError>
    ensures { IfOk result (λ text. string_bytes text ≡ spec.option_lines options.now) }
{
    let mut text = String::new(alloc);
    for option in options {
        let (name, kind) = *option;
        let line = format!(in alloc; "  --{name}: {}\n", kind.text())?;
        text.push_str(line.as_str())?;
    }
    Ok(text)
}

/// Returns a word's line of help, its options, and an example.
pub(crate) fn word_text(alloc: Global, word: Subcommand) -> Result<String, AllocError>
    ensures { IfOk result (λ text. string_bytes text ≡ spec.word_text word) }
{
    let lines = option_lines(alloc, word.options)?;
    let mut text = format!(in alloc; "{}\n", word.about)?;
    text.push_str(lines.as_str())?;
    let example = format!(in alloc; "Example: {}\n", word.example)?;
    text.push_str(example.as_str())?;
    Ok(text)
}

// ---- what is wrong with a line

/// Returns what is said of a value that is no number, but may be a label.
fn not_a_number(alloc: Global, name: &str, value: &str) -> Result<String, AllocError>
    ensures { IfOk result (λ text. string_bytes text ≡ spec.not_a_number name.now value.now) }
{
    if is_labelled(COPY, value.as_bytes()) {
        return format!(in alloc; "{value} is a copy's label, but the {name} is wanted.");
    }
    if is_labelled(CUSTOMER, value.as_bytes()) {
        return format!(in alloc; "{value} is a customer's label, but the {name} is wanted.");
    }
    format!(in alloc; "The {name} is a number from 1 on: {value} isn't one.")
}

/// Returns what is wrong with a value, if it isn't of its option's kind.
fn wrong_value(
    alloc: Global,
    option: (&'static str, Kind),
    value: &str,
) -> Result<Option<String>, AllocError>
    ensures { IfOk result (λ text. option_map string_bytes text ≡ spec.wrong_value option.entry value.now) }
{
    let (name, kind) = option;
    if kind.is_row() && !is_number(value.as_bytes()) {
        return Ok(Some(not_a_number(alloc, name, value)?));
    }
    Ok(None)
}

/// Returns what is wrong with a word in the place of an option's name.
fn wrong_option(
    alloc: Global,
    options: &[(&'static str, Kind)],
    word: &str,
) -> Result<Option<String>, AllocError>
    ensures { IfOk result (λ text. option_map string_bytes text ≡ spec.wrong_option options.now word.now) }
{
    if !is_option(word) {
        let text = format!(in alloc; "{word} is one value too many.")?;
        return Ok(Some(text));
    }
    if option_named(bare_name(word), options).is_some() {
        return Ok(None);
    }
    let text = format!(in alloc; "{word} is no option of this word.")?;
    Ok(Some(text))
}

/// Returns what is wrong with the next word. `awaiting` is the option whose value it is.
fn wrong_word(
    alloc: Global,
    options: &[(&'static str, Kind)],
    awaiting: Option<(&'static str, Kind)>,
    word: &str,
) -> Result<Option<String>, AllocError>
    ensures { IfOk result (λ text. option_map string_bytes text
        ≡ spec.wrong_word options.now awaiting.entry word.now) }
{
    match awaiting {
        Some(option) => wrong_value(alloc, option, word),
        None => wrong_option(alloc, options, word),
    }
}

/// Returns the option whose value comes after this word.
fn next_awaited(
    options: &[(&'static str, Kind)],
    awaiting: Option<(&'static str, Kind)>,
    word: &str,
) -> Option<(&'static str, Kind)>
    ensures { result ≡ spec.next_awaited options.now awaiting.entry word.now }
{
    if awaiting.is_some() || !awaits_value(word) {
        return None;
    }
    option_named(bare_name(word), options)
}

/// Returns what is wrong after the last word.
fn wrong_end(
    alloc: Global,
    awaiting: Option<(&'static str, Kind)>,
) -> Result<Option<String>, AllocError>
    ensures { IfOk result (λ text. option_map string_bytes text ≡ spec.wrong_end awaiting.entry) }
{
    match awaiting {
        Some((name, _)) => Ok(Some(format!(in alloc; "No value follows --{name}.")?)),
        None => Ok(None),
    }
}

/// Returns what is wrong with the words after a word's name, in which each value follows its option's name.
pub(crate) fn wrong_from(
    alloc: Global,
    options: &[(&'static str, Kind)],
    words: &[&str],
) -> Result<Option<String>, AllocError>
    ensures { IfOk result (λ text. option_map string_bytes text
        ≡ spec.wrong_from options.now None (map (λ s. s.now) words.now)) }
{
    let mut awaiting = None;
    for word in words {
        let wrong = wrong_word(alloc, options, awaiting, word)?;
        if wrong.is_some() {
            return Ok(wrong);
        }
        awaiting = next_awaited(options, awaiting, word);
    }
    wrong_end(alloc, awaiting)
}

/// Reports whether one of the words is the option of this name.
fn is_named(name: &str, words: &[&str]) -> bool
    ensures { result ≡ spec.is_named name.now (map (λ s. s.now) words.now) }
{
    for word in words {
        if is_option(word) && bare_name(word) == name.as_bytes() {
            return true;
        }
    }
    false
}

/// Reports whether the option has to be there and isn't.
fn is_missing(option: (&'static str, Kind), words: &[&str]) -> bool
    ensures { result ≡ spec.is_missing option.entry (map (λ s. s.now) words.now) }
{
    let (name, kind) = option;
    kind.is_wanted() && !is_named(name, words)
}

/// Returns what is said of an option that has to be there and isn't.
fn missing_text(alloc: Global, option: (&'static str, Kind)) -> Result<String, AllocError>
    ensures { IfOk result (λ text. string_bytes text ≡ spec.missing_text option.entry) }
{
    let (name, _) = option;
    format!(in alloc; "The {name} is missing.")
}

/// Returns what is said of the first option that has to be there and isn't.
fn missing_in(
    alloc: Global,
    options: &[(&'static str, Kind)],
    words: &[&str],
) -> Result<Option<String>, AllocError>
    ensures { IfOk result (λ text. option_map string_bytes text
        ≡ spec.missing_in options.now (map (λ s. s.now) words.now)) }
{
    for option in options {
        if is_missing(*option, words) {
            return Ok(Some(missing_text(alloc, *option)?));
        }
    }
    Ok(None)
}

/// Returns what is wrong with the values of a word.
fn wrong_in(
    alloc: Global,
    options: &[(&'static str, Kind)],
    words: &[&str],
) -> Result<String, AllocError>
    ensures { IfOk result (λ text. string_bytes text
        ≡ spec.wrong_in options.now (map (λ s. s.now) words.now)) }
{
    if let Some(text) = wrong_from(alloc, options, words)? {
        return Ok(text);
    }
    match missing_in(alloc, options, words)? {
        Some(text) => Ok(text),
        None => String::from_str(alloc, "That isn't how the word is said."),
    }
}

/// Returns how the word is said, and what is wrong with the words after its name.
pub(crate) fn wrong_line(
    alloc: Global,
    word: Subcommand,
    words: &[&str],
) -> Result<String, AllocError>
    ensures { IfOk result (λ text. string_bytes text
        ≡ spec.wrong_line word (map (λ s. s.now) words.now)) }
{
    let wrong = wrong_in(alloc, word.options, words)?;
    format!(in alloc; "{}\n{wrong}", word.usage)
}

/// Returns the texts with the separator between them.
fn joined(alloc: Global, texts: &[&'static str], separator: &str) -> Result<String, AllocError>
    ensures { IfOk result (λ text. string_bytes text
        ≡ join_by (λ t. t) separator.now (map (λ s. s.now) texts.now)) }
{
    texts.join(alloc, separator)
}

/// Returns what is said after a word that the till doesn't have. `names` are the nearest words.
fn near_text(alloc: Global, names: &[&'static str]) -> Result<String, AllocError>
    ensures { IfOk result (λ text. string_bytes text ≡ spec.near_text (map (λ s. s.now) names.now)) }
{
    if names.is_empty() {
        return String::from_str(alloc, " is no word of the till. Say help for all words.");
    }
    let near = joined(alloc, names, ", ")?;
    format!(in alloc; " is no word of the till. Near it: {near}.")
}

/// Returns that the till has no such word, and the nearest ones.
pub(crate) fn unknown_word(
    alloc: Global,
    text: &str,
    words: &[Subcommand],
) -> Result<String, AllocError>
    ensures { IfOk result (λ said. string_bytes said ≡ spec.unknown_word text.now words.now) }
{
    let names = near_names(alloc, text, words)?;
    let near = near_text(alloc, names.as_slice())?;
    format!(in alloc; "{text}{near}")
}

// ---- help that is asked for

/// Reports whether the words are `help` and one more word.
pub(crate) fn is_help_on(words: &[String]) -> bool
    ensures { result ≡ spec.is_help_on (map string_bytes words.now) }
{
    let (_, rest) = words.split_at(word_place(words));
    match rest {
        [help, _] => help.as_str() == "help",
        _ => false,
    }
}

/// Returns the word that `help WORD` asks for.
pub(crate) fn helped(words: &[String], table: &[Subcommand]) -> Option<Subcommand>
    ensures { result ≡ spec.helped table.now (map string_bytes words.now) }
{
    let (_, rest) = words.split_at(word_place(words));
    match rest {
        [help, word] if help.as_str() == "help" => word_named(word.as_str(), table),
        _ => None,
    }
}
