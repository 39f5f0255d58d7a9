//! The closings of the drawers, in a text file beside the book: a line for each. A line of another drawer than the book's
//! own ends with its number.

ghost use Rattle.std.specs.Prelude.{◌≡◌};

use crate::caches::Shelf;
use crate::fault::TillFault;
use shop_types::Moment;
use std::alloc::{AllocError, Global};

/// The name of the file on the shelf.
const NAME: &str = "drawer";

/// What a line has if no settlement had accepted an entry.
const NONE: &str = "-";

/// A closing of the drawer.
#[derive(Drop)]
pub(crate) struct Closing {
    pub(crate) at: Moment,
    /// How many replies the book had.
    pub(crate) replies: u32,
    /// The sum of the payments that were accepted since the closing before, in cents.
    pub(crate) expected: u64,
    /// What was counted, in cents.
    pub(crate) counted: u64,
    /// The numbers of the entries that settlements had accepted.
    pub(crate) late: Vec<u32>,
    /// The number of the drawer, or 0 if it is the book's own.
    pub(crate) drawer: u32,
}

/// Returns the numbers of a list with commas between them, or none if a part isn't a number.
fn numbers_in(alloc: Global, text: &str) -> Result<Option<Vec<u32>>, AllocError> {
    let mut numbers = Vec::new(alloc);
    if text == NONE {
        return Ok(Some(numbers));
    }
    for piece in text.split(',') {
        let Ok(number) = piece.parse::<u32>() else {
            return Ok(None);
        };
        numbers.push(number)?;
    }
    Ok(Some(numbers))
}

/// Returns the drawer that a line's last words say: the book's own if there are none.
fn drawer_in(words: &[&str]) -> Option<u32> {
    match words {
        [] => Some(0),
        [drawer] => drawer.parse::<u32>().ok(),
        [_, _, ..] => None,
    }
}

/// Returns the closing that a line's words say, or none if they say none.
fn closing_in(alloc: Global, words: &[&str]) -> Result<Option<Closing>, AllocError> {
    let [at, replies, expected, counted, late, rest @ ..] = words else {
        return Ok(None);
    };
    let Some(drawer) = drawer_in(rest) else {
        return Ok(None);
    };
    let (Some(at), Ok(replies)) = (Moment::read(*at), replies.parse::<u32>()) else {
        return Ok(None);
    };
    let (Ok(expected), Ok(counted)) = (expected.parse::<u64>(), counted.parse::<u64>()) else {
        return Ok(None);
    };
    let Some(late) = numbers_in(alloc, *late)? else {
        return Ok(None);
    };
    Ok(Some(Closing {
        at,
        replies,
        expected,
        counted,
        late,
        drawer,
    }))
}

/// Returns the drawer's closings, in their order. Fails with `Drawer` if a line says none.
fn closings_in(alloc: Global, text: &str, drawer: u32) -> Result<Vec<Closing>, TillFault> {
    let mut closings = Vec::new(alloc);
    for line in text.lines() {
        let words: Vec<&str> = line.split(' ').collect(alloc)?;
        match closing_in(alloc, words.as_slice())? {
            Some(closing) if closing.drawer == drawer => closings.push(closing)?,
            Some(_) => {}
            None => return Err(TillFault::Drawer),
        }
    }
    Ok(closings)
}

/// Reads the drawer's closings, in their order. Fails with `Drawer` if the file is spoilt. It stays then.
pub(crate) fn closings<L: Shelf>(
    alloc: Global,
    shelf: &L,
    drawer: u32,
) -> Result<Vec<Closing>, TillFault> {
    let Some(bytes) = shelf.whole(alloc, NAME) else {
        return Err(TillFault::Drawer);
    };
    let Ok(text) = std::str::from_utf8(bytes.as_slice()) else {
        return Err(TillFault::Drawer);
    };
    if !text.is_empty() && !text.ends_with('\n') {
        return Err(TillFault::Drawer);
    }
    closings_in(alloc, text, drawer)
}

/// Returns the numbers with commas between them.
fn numbers_text(alloc: Global, numbers: &[u32]) -> Result<String, AllocError> {
    if numbers.is_empty() {
        return String::from_str(alloc, NONE);
    }
    let mut text = String::new(alloc);
    for number in numbers {
        if !text.as_str().is_empty() {
            text.push_str(",")?;
        }
        let number = format!(in alloc; "{number}")?;
        text.push_str(number.as_str())?;
    }
    Ok(text)
}

/// Returns the line of a closing.
fn line_of(alloc: Global, closing: &Closing) -> Result<String, TillFault> {
    let at = closing.at.text();
    let Ok(at) = std::str::from_utf8(at.as_slice()) else {
        return Err(TillFault::System);
    };
    let (replies, expected, counted) = (closing.replies, closing.expected, closing.counted);
    let late = numbers_text(alloc, closing.late.as_slice())?;
    let text = format!(in alloc; "{at} {replies} {expected} {counted} {late}")?;
    match closing.drawer {
        0 => Ok(format!(in alloc; "{text}\n")?),
        drawer => Ok(format!(in alloc; "{text} {drawer}\n")?),
    }
}

/// Adds a closing after the last. Fails with `NotClosed` if it can't be written. Then the file stays.
pub(crate) fn add_closing<L: Shelf>(
    alloc: Global,
    shelf: &L,
    closing: &Closing,
) -> Result<(), TillFault> {
    let line = line_of(alloc, closing)?;
    if shelf.add(alloc, NAME, line.as_bytes()) {
        Ok(())
    } else {
        Err(TillFault::NotClosed)
    }
}
