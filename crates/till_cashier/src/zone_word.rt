//! Another zone for an open book, and what is said of it.

ghost use Rattle.std.specs.Prelude.{◌<◌, ◌⊎◌, ◌++◌, false, codes, string_bytes, IfOk, IfErr, IfSome, OnOk, ◌≡◌};
ghost use Rattle.sqlite.specs.Held.{state};
ghost use Rattle.sqlite.specs.State.{HasCleanDisk};
ghost use Rattle.shop_model.specs.Calendar.{seconds_of};
ghost use Rattle.till_book.specs.Steps.{Stays};
ghost use Rattle.till_requests.specs.Zones.{offset_of};
ghost use Rattle.till_cashier.specs.Clock.{local_clock};
ghost use Rattle.till_cashier.specs.LastMoment.{PassesLast};
ghost use Rattle.till_cashier.specs.ZoneText as spec;

use crate::book::Book;
use crate::caches::Shelf;
use crate::clock::WallClock;
use crate::desk::Desk;
use crate::fault::TillFault;
use crate::said::Said;
use shop_types::Moment;
use sqlite::{Alter, Connection};
use std::alloc::{AllocError, Global};
use till_requests::{Settings, Zone, zone_offset};
use till_work::Server;

/// Tests that the moment is later than the last entry's.
fn passes(now: Moment, last: Option<Moment>) -> Result<(), TillFault>
    ensures passed { OnOk result (IfSome last (λ it. seconds_of it < seconds_of now)) }
    ensures behind { IfErr result (λ fault. fault ≡ TillFault.ZoneBehind) }
{
    match last {
        Some(last) if !last.is_earlier(now) => Err(TillFault::ZoneBehind),
        Some(_) | None => Ok(()),
    }
}

/// Tests that entries can go on by another zone: it has the standard time of the one before, or the moment is later than
/// the last entry's.
fn goes_on(
    before: &Option<Zone>,
    zone: &Option<Zone>,
    now: Moment,
    last: Option<Moment>,
) -> Result<(), TillFault>
    ensures passed { OnOk result ((offset_of before.now ≡ offset_of zone.now)
        ⊎ IfSome last (λ it. seconds_of it < seconds_of now)) }
    ensures behind { IfErr result (λ fault. fault ≡ TillFault.ZoneBehind) }
{
    if zone_offset(before) == zone_offset(zone) {
        return Ok(());
    }
    passes(now, last)
}

/// Accepts the zone of the desk's settings for the book, and returns the clock's moment in that zone. `before` is the zone
/// that the book had. If the two have not the same standard time, and the moment isn't later than the last entry's, fails
/// with `ZoneBehind`. The book stays.
pub fn accept_zone<S: Alter, K: WallClock, V: Server, L: Shelf>(
    desk: &Desk<'_, K, V, L>,
    conn: &mut Connection<S>,
    before: &Option<Zone>,
) -> Result<Moment, TillFault>
    requires { conn.old.in_transaction ≡ false }
    ensures ended { conn.new.in_transaction ≡ false }
    ensures clean { HasCleanDisk (state S.Store conn.new) → HasCleanDisk (state S.Store conn.old) }
    ensures stays { HasCleanDisk (state S.Store conn.new) → Stays (state S.Store conn.old) (state S.Store conn.new) }
    ensures shown { IfOk result (λ now. local_clock (K.shows desk.now.clock.now) desk.now.settings.now.zone
        (seconds_of now)) }
    ensures later { HasCleanDisk (state S.Store conn.new)
        → IfOk result (λ now. (offset_of before.now ≡ offset_of desk.now.settings.now.zone)
        ⊎ PassesLast (seconds_of now) (state S.Store conn.old)) }
{
    let book = Book::read(desk.alloc, desk.routes, &desk.settings.mark, conn)?;
    let now = desk.now()?;
    goes_on(before, &desk.settings.zone, now, book.last)?;
    Ok(now)
}

/// Returns the name of the settings' zone.
fn zone_name(zone: &Option<Zone>) -> &str
    ensures { result.now ≡ spec.zone_name zone.now }
{
    match zone {
        Some(zone) => zone.name.as_str(),
        None => "UTC",
    }
}

/// Returns how far a standard time is from UTC, as `-07:00`.
fn time_text(alloc: Global, seconds: i32) -> Result<String, AllocError> {
    let sign = if seconds < 0 { "-" } else { "+" };
    let minutes = seconds.unsigned_abs() / 60;
    let (hours, minutes) = (minutes / 60, minutes % 60);
    format!(in alloc; "{sign}{hours:02}:{minutes:02}")
}

/// Returns the sentence on a zone: its name, and its standard time.
fn zone_line(alloc: Global, name: &str, time: &str) -> Result<String, AllocError>
    ensures { IfOk result (λ line. string_bytes line
        ≡ codes "the till's zone is " ++ (name.now ++ (codes ": entries have its standard time, UTC" ++ time.now))) }
{
    format!(in alloc; "the till's zone is {name}: entries have its standard time, UTC{time}")
}

/// Says the settings' zone, and its standard time.
pub fn zone_said(alloc: Global, settings: &Settings) -> Result<Said, TillFault>
    ensures text { IfOk result (λ said. spec.IsZoneText (spec.zone_name settings.now.zone) (string_bytes said.text)) }
    ensures done { IfOk result (λ said. said.status ≡ 0) }
{
    let time = time_text(alloc, zone_offset(&settings.zone))?;
    let line = zone_line(alloc, zone_name(&settings.zone), time.as_str())?;
    let mut said = Said::done(alloc);
    said.line(line.as_str())?;
    Ok(said)
}
