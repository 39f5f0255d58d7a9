//! Makes a book and its settings.

ghost use Rattle.std.specs.Prelude.{◌≡◌, IfOk, string_bytes};
ghost use Rattle.till_requests.specs.Marks.{IsDrawnMark};
ghost use Rattle.till_program.specs.Lines.{ready_text};

use crate::files::{begin_at, is_there, may_be_book, write_own};
use crate::zones::zone_named;
use std::fs;
use till_cashier::{Said, TillFault};
use till_files::close_book;
use till_requests::{Dice, NoSettings, Settings, Zone, new_mark, read_settings, settings_text};
use till_words::{Beginning, ZoneText};

/// Returns the path of a book's settings.
pub fn settings_path(rt: &HostRuntime, book: &str) -> Result<String, TillFault> {
    let alloc = rt.alloc();
    Ok(format!(in alloc; "{book}.conf")?)
}

/// Reads the settings beside a book.
pub(crate) fn settings_of(rt: &HostRuntime, book: &str) -> Result<Settings, TillFault> {
    let path = settings_path(rt, book)?;
    let Ok(text) = fs::read(rt, path.as_str()) else {
        return Err(TillFault::Settings);
    };
    Ok(read_settings(rt.alloc(), text.as_slice())?)
}

/// Returns whether a book may be made there. `init` writes the settings last. So if the settings are missing or empty,
/// an `init` that was cut off may have left a book without an entry.
pub fn is_free(rt: &HostRuntime, book: &str) -> Result<bool, TillFault> {
    let alloc = rt.alloc();
    let settings = settings_path(rt, book)?;
    let is_written = match fs::read(rt, settings.as_str()) {
        Ok(text) => !text.is_empty(),
        Err(_) => is_there(rt, settings.as_str()),
    };
    if is_written {
        return Ok(false);
    }
    if is_there(rt, book) {
        return Ok(may_be_book(rt, book));
    }
    let log = format!(in alloc; "{book}-wal")?;
    Ok(!is_there(rt, log.as_str()))
}

/// Returns the text of the settings, which `read_settings` reads.
pub(crate) fn text_of(rt: &HostRuntime, settings: &Settings) -> Result<Vec<u8>, TillFault> {
    let text = settings_text(rt.alloc(), settings)?;
    match read_settings(rt.alloc(), text.as_slice()) {
        Ok(_) => Ok(text),
        Err(NoSettings::Form) => Err(TillFault::NotKept),
        Err(NoSettings::Memory) => Err(TillFault::Memory),
    }
}

/// Returns the zone that was typed, if one was.
fn zone_typed(rt: &HostRuntime, zone: Option<ZoneText>) -> Result<Option<Zone>, TillFault> {
    match zone {
        Some(name) => Ok(Some(zone_named(rt, name.as_str())?)),
        None => Ok(None),
    }
}

/// Returns the settings that were typed for a new book, with its zone and a mark that was drawn.
fn settings_typed<D: Dice>(
    rt: &HostRuntime,
    dice: &D,
    beginning: Beginning,
) -> Result<Settings, TillFault>
    ensures typed { IfOk result (λ it. it ≡ record {
      address = beginning.address;
      token = beginning.token;
      staff = beginning.staff;
      mark = it.mark;
      zone = it.zone;
    }) }
    ensures drawn { IfOk result (λ it. IsDrawnMark (D.draws dice.now) it.mark) }
{
    let Beginning {
        address,
        token,
        staff,
        zone,
    } = beginning;
    let zone = zone_typed(rt, zone)?;
    let mark = new_mark(dice)?;
    Ok(Settings {
        address,
        token,
        staff,
        mark,
        zone,
    })
}

/// Makes a book, with a mark that no other book has, and its settings beside it. Fails with `Already` if settings, a
/// book with entries, or a file that is no book is there. That file stays.
pub(crate) fn begin(rt: &HostRuntime, book: &str, beginning: Beginning) -> Result<Said, TillFault>
    ensures { IfOk result (λ said. (string_bytes said.text ≡ ready_text) × (said.status ≡ 0)) }
{
    if !is_free(rt, book)? {
        return Err(TillFault::Already);
    }
    let settings = settings_typed(rt, rt, beginning)?;
    let text = text_of(rt, &settings)?;
    let conn = begin_at(rt, book)?;
    drop(close_book(conn));
    let path = settings_path(rt, book)?;
    write_own(rt, path.as_str(), text.as_slice())?;
    let mut said = Said::done(rt.alloc());
    said.line("the till is ready")?;
    Ok(said)
}
