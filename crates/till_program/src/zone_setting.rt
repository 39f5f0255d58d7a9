//! The word that sets a book's zone.

ghost use Rattle.std.specs.Prelude.{◌≡◌, ◌⊎◌, false, string_bytes, IfErr, IfOk, IfSome, OnOk, Some};
ghost use Rattle.sqlite.specs.Files.{file_state};
ghost use Rattle.sqlite.specs.State.{HasCleanDisk};
ghost use Rattle.till_book.specs.Steps.{Stays};
ghost use Rattle.till_cashier.specs.ZoneText.{IsZoneText};
ghost use Rattle.till_program.specs.Lines.{SetsZone, SetsZoneIn, HasZone, IsNotBegun};

use crate::files::{FileShelf, replace_own};
use crate::init::{settings_path, text_of};
use crate::opening::{OpenBook, Tools, opened};
use crate::tcp::Tcp;
use crate::way::Way;
use crate::zones::{rules_of, wall_zone, zone_named};
use sqlite::{Connection, FileStore};
use sqlite_std_file::File;
use std::mem;
use till_cashier::{Desk, Said, TillFault, accept_zone, zone_said};
use till_requests::Zone;

/// Accepts the book's new settings, and writes them in the place of those that are there. `before` is the zone of those.
fn accepted(
    rt: &HostRuntime,
    tools: &Tools,
    conn: &mut Connection<FileStore<File>>,
    before: &Option<Zone>,
) -> Result<(), TillFault>
    requires { conn.old.in_transaction ≡ false }
    ensures ended { conn.new.in_transaction ≡ false }
    ensures clean { HasCleanDisk (file_state conn.new) → HasCleanDisk (file_state conn.old) }
    ensures stays { HasCleanDisk (file_state conn.new) → Stays (file_state conn.old) (file_state conn.new) }
{
    let name = tools.name.as_str();
    let way = Way::open();
    let server = Tcp {
        rt,
        address: tools.settings.address.as_str(),
        patience: way.patience,
    };
    let shelf = FileShelf { rt, book: name };
    let desk = Desk {
        alloc: rt.alloc(),
        clock: rt,
        server: &server,
        shelf: &shelf,
        routes: &tools.routes,
        settings: &tools.settings,
        sheet: &[],
        wall: wall_zone(&tools.rules, &tools.settings.zone),
        line: way.line,
        staff: None,
        drawer: 0,
        is_json: false,
        is_sure: false,
        said_day: None,
    };
    accept_zone(&desk, conn, before)?;
    let path = settings_path(rt, name)?;
    let text = text_of(rt, &tools.settings)?;
    replace_own(rt, path.as_str(), text.as_slice())
}

/// Sets the zone of an open book. If that fails, the settings stay.
fn changed(rt: &HostRuntime, book: &mut OpenBook, zone: Zone) -> Result<(), TillFault>
    requires { book.old.conn.in_transaction ≡ false }
    ensures ended { book.new.conn.in_transaction ≡ false }
    ensures sets { SetsZone book.old book.new }
    ensures set { OnOk result (book.new.tools.settings.zone ≡ Some zone) }
{
    let rules = rules_of(rt, zone.name.as_str())?;
    let before = mem::replace(&mut book.tools.settings.zone, Some(zone));
    match accepted(rt, &book.tools, &mut book.conn, &before) {
        Ok(()) => {
            book.tools.rules = rules;
            Ok(())
        }
        Err(fault) => {
            book.tools.settings.zone = before;
            Err(fault)
        }
    }
}

/// Sets the zone of the book of that file to the zone of that name. Its clock has to be past the book's last entry, unless
/// its standard time is that of the zone before. Else the settings stay. The book stays open, and is held, unless it
/// failed.
pub(crate) fn set_zone(
    rt: &HostRuntime,
    book: &str,
    held: &mut Option<OpenBook>,
    name: &str,
) -> Result<Said, TillFault>
    requires { IfSome held.old (λ book. book.conn.in_transaction ≡ false) }
    ensures ended { IfSome held.new (λ book. book.conn.in_transaction ≡ false) }
    ensures sets { IfOk result (λ _. SetsZoneIn book.now held.old held.new) }
    ensures set { IfOk result (λ _. HasZone name.now held.new) }
    ensures said { IfOk result (λ said. IsZoneText name.now (string_bytes said.text) × (said.status ≡ 0)) }
    ensures fails { IfErr result (λ _. IsNotBegun held.old held.new ⊎ SetsZoneIn book.now held.old held.new) }
{
    let zone = zone_named(rt, name)?;
    let mut book = opened(rt, book, held)?;
    let done = changed(rt, &mut book, zone);
    let said = zone_said(rt.alloc(), &book.tools.settings);
    if let Err(TillFault::Book) = done {
        book.close();
        return Err(TillFault::Book);
    }
    *held = Some(book);
    done?;
    said
}
