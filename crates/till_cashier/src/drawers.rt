//! Which entries are whose drawer's, in a text file beside the book: a line for each change.

ghost use Rattle.std.specs.Prelude.{◌≡◌, ◌==◌, filter, IfOk};
ghost use Rattle.till_cashier.specs.Drawers.{drawer_at, is_of, own_of};

use crate::caches::Shelf;
use crate::fault::TillFault;
use std::alloc::{AllocError, Global};
use till_book::{Came, Counted};

/// The name of the file on the shelf.
const NAME: &str = "drawers";

/// The end of a line that wasn't written whole, and says nothing.
const TORN: char = '-';

/// From the entry of that number on, entries are that drawer's. Drawer 0 is the book's own.
#[derive(Clone, Copy)]
pub(crate) struct Change {
    pub(crate) from: u32,
    pub(crate) drawer: u32,
}

/// Returns the change that a line says, or none if the line wasn't written whole. Fails with `Drawer` if it is spoilt.
fn change_in(line: &str) -> Result<Option<Change>, TillFault> {
    if line.ends_with(TORN) {
        return Ok(None);
    }
    let Some((from, drawer)) = line.split_once(' ') else {
        return Err(TillFault::Drawer);
    };
    match (from.parse::<u32>(), drawer.parse::<u32>()) {
        (Ok(from), Ok(drawer)) => Ok(Some(Change { from, drawer })),
        (Ok(_) | Err(_), Ok(_) | Err(_)) => Err(TillFault::Drawer),
    }
}

/// Parts the lines that are ended from what is after them. Fails with `Drawer` if the file is spoilt.
fn parted(bytes: &[u8]) -> Result<(&str, &str), TillFault> {
    match std::str::from_utf8(bytes) {
        Ok(text) => Ok(text.rsplit_once('\n').unwrap_or(("", text))),
        Err(_) => Err(TillFault::Drawer),
    }
}

/// Reads the changes, in their order. Fails with `Drawer` if the file is spoilt. It stays then.
pub(crate) fn changes<L: Shelf>(alloc: Global, shelf: &L) -> Result<Vec<Change>, TillFault> {
    let Some(bytes) = shelf.whole(alloc, NAME) else {
        return Err(TillFault::Drawer);
    };
    let (lines, _) = parted(bytes.as_slice())?;
    let mut changes = Vec::new(alloc);
    for line in lines.lines() {
        if let Some(change) = change_in(line)? {
            changes.push(change)?;
        }
    }
    Ok(changes)
}

/// Returns the drawer of the last line that says one, or the book's own if none does.
fn last_drawer(lines: &str) -> Result<u32, TillFault> {
    if lines.is_empty() {
        return Ok(0);
    }
    for line in lines.rsplit('\n') {
        if let Some(change) = change_in(line)? {
            return Ok(change.drawer);
        }
    }
    Ok(0)
}

/// Returns whose drawer's the entry of that number is: the last change that isn't after it says so. Before the first
/// change it is the book's own.
fn drawer_at(changes: &[Change], number: u32) -> u32
    ensures { result ≡ drawer_at 0 changes.now number }
{
    let mut drawer = 0;
    for it in changes {
        if it.from <= number {
            drawer = it.drawer;
        }
    }
    drawer
}

/// Tests whether an entry is the drawer's.
fn is_of(changes: &[Change], drawer: u32, it: Came) -> bool
    ensures { result ≡ is_of changes.now drawer it }
{
    let (number, _) = it;
    drawer_at(changes, number) == drawer
}

/// Returns how the entries of the drawer are counted, in their order.
pub(crate) fn own_entries(
    alloc: Global,
    changes: &[Change],
    drawer: u32,
    came: &[Came],
) -> Result<Vec<Counted>, AllocError>
    ensures { IfOk result (λ own. own.items ≡ own_of changes.now drawer came.now) }
{
    let mut own = Vec::new(alloc);
    for it in came {
        if is_of(changes, drawer, *it) {
            let (_, what) = *it;
            own.push(what)?;
        }
    }
    Ok(own)
}

/// Notes that the next entries are the drawer's, if those before them aren't. `entries` is how many the book has. Fails
/// with `Drawer` if the file is spoilt, and with `System` if it can't be written. What is there of a line then is marked
/// before the next one.
pub(crate) fn note_drawer<L: Shelf>(
    alloc: Global,
    shelf: &L,
    drawer: u32,
    entries: u32,
) -> Result<(), TillFault> {
    let Some(bytes) = shelf.whole(alloc, NAME) else {
        return Err(TillFault::Drawer);
    };
    let (lines, rest) = parted(bytes.as_slice())?;
    if last_drawer(lines)? == drawer {
        return Ok(());
    }
    let Some(next) = entries.checked_add(1) else {
        return Err(TillFault::Full);
    };
    let line = if rest.is_empty() {
        format!(in alloc; "{next} {drawer}\n")?
    } else {
        format!(in alloc; "{TORN}\n{next} {drawer}\n")?
    };
    if shelf.append(alloc, NAME, line.as_bytes()) {
        Ok(())
    } else {
        Err(TillFault::System)
    }
}
