//! Lines that are said more shortly: several words that are looked for, and a number or a label alone.

ghost use Rattle.std.specs.Prelude.{◌≡◌, [], ◌∷◌, ◌++◌, map, string_bytes, codes, IfOk, OnOk};
ghost use Rattle.till_words.specs.Spoken as spec;
ghost use Rattle.till_words.specs.Places.{is_option as is_option_word};
ghost use Rattle.std.specs.List.{list_any, join_by};

use crate::labels::{COPY, CUSTOMER, is_labelled, is_number, unlabelled};
use crate::named::{copied, is_option, word_place};
use std::alloc::{AllocError, Global};

/// Reports whether one of the texts is an option.
fn has_option(texts: &[String]) -> bool
    ensures { result ≡ list_any is_option_word (map string_bytes texts.now) }
{
    texts.iter().any(|text| is_option(text.as_str()))
}

/// Reports whether the word looks for customers or films by a text.
fn looks_for(word: &str) -> bool
    ensures { result ≡ spec.looks_for word.now }
{
    word == "customer" || word == "film"
}

/// Returns the texts with blanks between them.
fn joined(alloc: Global, texts: &[String]) -> Result<String, AllocError>
    ensures { IfOk result (λ text. string_bytes text
        ≡ join_by (λ t. t) (codes " ") (map string_bytes texts.now)) }
{
    texts.join(alloc, " ")
}

/// Returns what is looked for: the texts with blanks between them. A customer may be looked for by the label.
fn sought(alloc: Global, word: &str, texts: &[String]) -> Result<String, AllocError>
    ensures { IfOk result (λ text. string_bytes text ≡ spec.sought word.now (map string_bytes texts.now)) }
{
    let text = joined(alloc, texts)?;
    if word == "customer" {
        return String::from_str(alloc, unlabelled(CUSTOMER, text.as_str()));
    }
    Ok(text)
}

/// Returns two words.
fn two(alloc: Global, word: &str, text: &str) -> Result<Vec<String>, AllocError>
    ensures { IfOk result (λ words. map string_bytes words.items ≡ word.now ∷ text.now ∷ []) }
{
    let mut words = Vec::new(alloc);
    words.push(String::from_str(alloc, word)?)?;
    words.push(String::from_str(alloc, text)?)?;
    Ok(words)
}

/// Returns the words for a word alone. A number or a copy's label is that copy, and a customer's label that customer.
fn spoken_alone(alloc: Global, words: &[String], word: &str) -> Result<Vec<String>, AllocError>
    requires { map string_bytes words.now ≡ word.now ∷ [] }
    ensures { IfOk result (λ spoken. map string_bytes spoken.items ≡ spec.spoken_alone word.now) }
{
    if is_number(word.as_bytes()) || is_labelled(COPY, word.as_bytes()) {
        return two(alloc, "in-stock", word);
    }
    if is_labelled(CUSTOMER, word.as_bytes()) {
        return two(alloc, "customer", unlabelled(CUSTOMER, word));
    }
    copied(alloc, words)
}

/// Returns the words for a word and the texts after it. `words` are both.
fn spoken_with(
    alloc: Global,
    words: &[String],
    word: &str,
    texts: &[String],
) -> Result<Vec<String>, AllocError>
    requires { map string_bytes words.now ≡ word.now ∷ map string_bytes texts.now }
    ensures { IfOk result (λ spoken. map string_bytes spoken.items
        ≡ spec.spoken_with word.now (map string_bytes texts.now)) }
{
    if texts.is_empty() {
        return spoken_alone(alloc, words, word);
    }
    if looks_for(word) && !has_option(texts) {
        let text = sought(alloc, word, texts)?;
        return two(alloc, word, text.as_str());
    }
    copied(alloc, words)
}

/// Returns the words from the subcommand on as they would be typed in full.
fn spoken_from(alloc: Global, words: &[String]) -> Result<Vec<String>, AllocError>
    ensures { IfOk result (λ spoken. map string_bytes spoken.items
        ≡ spec.spoken_from (map string_bytes words.now)) }
{
    match words {
        [] => Ok(Vec::new(alloc)),
        [word, texts @ ..] => spoken_with(alloc, words, word.as_str(), texts),
    }
}

/// Adds copies of the words.
fn push_copies(alloc: Global, words: &mut Vec<String>, more: &[String]) -> Result<(), AllocError>
    ensures { OnOk result (map string_bytes words.new.items
        ≡ map string_bytes words.old.items ++ map string_bytes more.now) }
{
    for word in more {
        words.push(String::from_str(alloc, word.as_str())?)?;
    }
    Ok(())
}

/// Returns the words as they would be typed in full. What comes before the word stays.
pub(crate) fn spoken_words(alloc: Global, words: &[String]) -> Result<Vec<String>, AllocError>
    ensures { IfOk result (λ spoken. map string_bytes spoken.items ≡ spec.spoken (map string_bytes words.now)) }
{
    let (before, rest) = words.split_at(word_place(words));
    let mut spoken = Vec::new(alloc);
    push_copies(alloc, &mut spoken, before)?;
    let more = spoken_from(alloc, rest)?;
    push_copies(alloc, &mut spoken, more.as_slice())?;
    Ok(spoken)
}
