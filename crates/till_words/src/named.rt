//! Values in their places: puts the name of its option before each value.

ghost use Rattle.std.specs.Prelude.{◌≡◌, ◌≤◌, ◌++◌, false, map, drop, length, string_bytes, IfOk, OnOk};
ghost use Rattle.till_words.specs.Places as spec;

use crate::labels::value_for;
use crate::places::places_of;
use std::alloc::{AllocError, Global};

// ---- options among the words

pub(crate) fn is_option(word: &str) -> bool
    ensures { result ≡ spec.is_option word.now }
{
    word.as_bytes().starts_with(b"--")
}

/// Returns an option's name with its hyphens: the text before the first `=`.
pub(crate) fn option_name(word: &str) -> &str
    ensures { result.now ≡ spec.option_name word.now }
{
    match word.split_once('=') {
        Some((name, _)) => name,
        None => word,
    }
}

/// Reports whether the word is an option without a value.
fn is_flag(word: &str) -> bool
    ensures { result ≡ spec.is_flag word.now }
{
    word == "--json" || word == "--office" || word == "--yes" || word == "--late"
}

/// Reports whether the word is an option whose value is the next word.
pub(crate) fn awaits_value(word: &str) -> bool
    ensures { result ≡ spec.awaits_value word.now }
{
    is_option(word) && !is_flag(word) && option_name(word).len() == word.len()
}

/// Returns how many words come before the first word that is neither an option nor an option's value.
pub(crate) fn word_place(words: &[String]) -> usize
    ensures value { result ≡ spec.word_place (map string_bytes words.now) }
    ensures bound { result ≤ length words.now }
{
    let mut place = 0;
    let mut awaits = false;
    let mut rest = words;
    while let [word, others @ ..] = rest {
        if !awaits && !is_option(word.as_str()) {
            break;
        }
        awaits = awaits_value(word.as_str());
        place += 1;
        rest = others;
    }
    place
}

// ---- places

/// Reports whether one of the words is the option of this name.
fn is_given(words: &[String], name: &str) -> bool
    ensures { result ≡ spec.is_given (map string_bytes words.now) name.now }
{
    words.iter().any(|word| option_name(word.as_str()) == name)
}

/// Returns the places of the options that aren't given by their names.
fn free_places(
    alloc: Global,
    words: &[String],
    names: &'static [&'static str],
) -> Result<Vec<&'static str>, AllocError>
    ensures { IfOk result (λ free. map (λ s. s.now) free.items
        ≡ spec.free_places (map string_bytes words.now) (map (λ s. s.now) names.entry.now)) }
{
    let mut free = Vec::new(alloc);
    for name in names {
        if !is_given(words, name) {
            free.push(*name)?;
        }
    }
    Ok(free)
}

// ---- naming

/// Adds the words as they are.
fn push_words<'a>(named: &mut Vec<&'a str>, words: &'a [String]) -> Result<(), AllocError>
    ensures { OnOk result (map (λ s. s.now) named.new.items
        ≡ map (λ s. s.now) named.old.items ++ map string_bytes words.entry.now) }
{
    for word in words {
        named.push(word.as_str())?;
    }
    Ok(())
}

/// Adds a value after the name of the first place, or without a name if no place is left.
fn push_placed<'a>(
    named: &mut Vec<&'a str>,
    names: &[&'static str],
    word: &'a str,
) -> Result<(), AllocError>
    ensures { OnOk result (map (λ s. s.now) named.new.items
        ≡ map (λ s. s.now) named.old.items ++ spec.placed (map (λ s. s.now) names.now) word.entry.now) }
{
    if let [name, ..] = names {
        named.push(*name)?;
        named.push(value_for(name, word))?;
    } else {
        named.push(word)?;
    }
    Ok(())
}

/// Returns the places after the first one.
fn next_places<'a>(names: &'a [&'static str]) -> &'a [&'static str]
    ensures { map (λ s. s.now) result.now ≡ drop 1 (map (λ s. s.now) names.entry.now) }
{
    match names {
        [_, others @ ..] => others,
        [] => names,
    }
}

/// Adds the words after the subcommand, each value after its option's name.
fn push_named<'a>(
    named: &mut Vec<&'a str>,
    names: &[&'static str],
    words: &'a [String],
) -> Result<(), AllocError>
    ensures { OnOk result (map (λ s. s.now) named.new.items
        ≡ map (λ s. s.now) named.old.items ++ spec.named_from false (map (λ s. s.now) names.now)
        (map string_bytes words.entry.now)) }
{
    let mut awaits = false;
    let mut left = names;
    for word in words {
        let word = word.as_str();
        if awaits || is_option(word) {
            named.push(word)?;
            awaits = awaits_value(word);
        } else {
            push_placed(named, left, word)?;
            left = next_places(left);
        }
    }
    Ok(())
}

/// Adds the words from the subcommand on.
fn push_behind<'a>(
    alloc: Global,
    named: &mut Vec<&'a str>,
    words: &'a [String],
) -> Result<(), AllocError>
    ensures { OnOk result (map (λ s. s.now) named.new.items
        ≡ map (λ s. s.now) named.old.items ++ spec.named_behind (map string_bytes words.entry.now)) }
{
    let [word, values @ ..] = words else {
        return Ok(());
    };
    named.push(word.as_str())?;
    if word.as_str() == "office" {
        return Ok(());
    }
    let free = free_places(alloc, values, places_of(word.as_str()))?;
    push_named(named, free.as_slice(), values)
}

/// Returns the words with a name before each value, for the library `clap` to read.
pub(crate) fn named_words<'a>(
    alloc: Global,
    words: &'a [String],
) -> Result<Vec<&'a str>, AllocError>
    ensures { IfOk result (λ named. map (λ s. s.now) named.items
        ≡ spec.named_words (map string_bytes words.entry.now)) }
{
    let (options, rest) = words.split_at(word_place(words));
    let mut named = Vec::new(alloc);
    push_words(&mut named, options)?;
    push_behind(alloc, &mut named, rest)?;
    Ok(named)
}

pub(crate) fn copied(alloc: Global, words: &[String]) -> Result<Vec<String>, AllocError>
    ensures { IfOk result (λ copies. map string_bytes copies.items ≡ map string_bytes words.now) }
{
    let mut copies = Vec::new(alloc);
    for word in words {
        copies.push(String::from_str(alloc, word.as_str())?)?;
    }
    Ok(copies)
}

/// Returns the words after the subcommand.
pub(crate) fn office_words(alloc: Global, words: &[String]) -> Result<Vec<String>, AllocError>
    ensures { IfOk result (λ copies. map string_bytes copies.items ≡ spec.office_words (map string_bytes words.now)) }
{
    let (_, rest) = words.split_at(word_place(words));
    match rest {
        [_, behind @ ..] => copied(alloc, behind),
        [] => Ok(Vec::new(alloc)),
    }
}
