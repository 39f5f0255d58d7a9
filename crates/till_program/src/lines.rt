//! A line of words as bytes: how many there are, and each as a field.

ghost use Rattle.std.specs.Prelude.{◌≡◌, ◌≤◌, ◌++◌, length, IfOk, IfErr, OnOk, Ok, map, string_bytes};
ghost use Rattle.till_program.specs.Frames.{AreWords, line};
ghost use Rattle.till_program.specs.Reading.{Gives, Fails, words_at, line_at};

use crate::fault::{NoFrame, NoLine};
use crate::fields::{field_of, number_of, put_field};
use std::alloc::{AllocError, Global};

/// How many bytes a line, a word of it, and a file each have at most.
pub(crate) const MOST: u32 = 65_536;

/// Returns the first words, and what follows them.
fn words_of(alloc: Global, count: u32, bytes: &[u8]) -> Result<(Vec<Vec<u8>>, &[u8]), NoLine>
    ensures { Gives (λ x. (map (λ v. v.items) x.0.items, x.1.now)) result (words_at count bytes.now) }
{
    let mut words = Vec::new(alloc);
    let mut rest = bytes;
    for _ in 0..count {
        let (word, after) = field_of(rest, MOST)?;
        words.push(Vec::from_slice(alloc, word)?)?;
        rest = after;
    }
    Ok((words, rest))
}

/// Returns the words of a line, as bytes.
#[tactic(auto, unfolding(crate::specs::Reading::line_at))]
fn parts_of(alloc: Global, bytes: &[u8]) -> Result<Vec<Vec<u8>>, NoLine>
    ensures { Gives (λ v. map (λ w. w.items) v.items) result (line_at bytes.now) }
{
    let (count, rest) = number_of(bytes)?;
    let (words, rest) = words_of(alloc, count, rest)?;
    if !rest.is_empty() {
        return Err(NoLine::Form(NoFrame::Trailing));
    }
    Ok(words)
}

/// Returns the words as texts.
fn texts_of(alloc: Global, parts: Vec<Vec<u8>>) -> Result<Vec<String>, NoLine>
    ensures { IfOk result (λ texts. map string_bytes texts.items ≡ map (λ w. w.items) parts.items) }
{
    let mut texts = Vec::new(alloc);
    for part in &parts {
        let Ok(text) = std::str::from_utf8(part.as_slice()) else {
            return Err(NoLine::NotText);
        };
        texts.push(String::from_str(alloc, text)?)?;
    }
    Ok(texts)
}

/// Reads a line of words, all of the bytes.
pub fn read_line(alloc: Global, bytes: &[u8]) -> Result<Vec<String>, NoLine>
    ensures read { IfOk result (λ texts. line_at bytes.now ≡ Ok (map string_bytes texts.items)) }
    ensures found { IfOk result (λ texts. bytes.now ≡ line (map string_bytes texts.items)) }
{
    let parts = parts_of(alloc, bytes)?;
    texts_of(alloc, parts)
}

/// Adds copies of the words.
pub(crate) fn push_copies(
    alloc: Global,
    words: &mut Vec<String>,
    more: &[String],
) -> Result<(), AllocError>
    ensures { OnOk result (map string_bytes words.new.items
        ≡ map string_bytes words.old.items ++ map string_bytes more.now) }
{
    for word in more {
        words.push(String::from_str(alloc, word.as_str())?)?;
    }
    Ok(())
}

/// Returns the bytes of a line of words. Fails with `Form` if a word or the line is too long.
pub(crate) fn line_of(alloc: Global, words: &[String]) -> Result<Vec<u8>, NoLine>
    ensures written { IfOk result (λ v. v.items ≡ line (map string_bytes words.now)) }
    ensures words { IfOk result (λ _. AreWords (map string_bytes words.now)) }
    ensures bound { IfOk result (λ v. length v.items ≤ 65_536) }
{
    let Ok(count) = u32::try_from(words.len()) else {
        return Err(NoLine::Form(NoFrame::Long));
    };
    let mut out = Vec::new(alloc);
    out.extend_from_slice(&count.to_be_bytes())?;
    for word in words {
        if word.len() > MOST as usize {
            return Err(NoLine::Form(NoFrame::Long));
        }
        put_field(&mut out, word.as_bytes())?;
    }
    if out.len() > MOST as usize {
        return Err(NoLine::Form(NoFrame::Long));
    }
    Ok(out)
}
