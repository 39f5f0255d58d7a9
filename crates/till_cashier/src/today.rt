//! Today's date. A person says it before a book's first entry, and before one that is more than 36 hours after the last.

ghost use Rattle.std.specs.Prelude.{◌≡◌, true, pos, IfOk, OnOk, Some, string_bytes};
ghost use Rattle.shop_model.specs.Calendar.{day_of, seconds_of};
ghost use Rattle.till_requests.specs.Zones.{offset_of};
ghost use Rattle.till_cashier.specs.Clock.{local_clock};
ghost use Rattle.till_cashier.specs.Today as spec;

use crate::book::Book;
use crate::caches::Shelf;
use crate::clock::WallClock;
use crate::desk::Desk;
use crate::drawers::note_drawer;
use crate::fault::TillFault;
use crate::said::Said;
use shop_types::Moment;
use std::alloc::{AllocError, Global};
use till_shows::day_words;
use till_words::TillAct;
use till_work::Server;

/// The name of the date on the shelf.
const NAME: &str = "today";

/// How many seconds after the last entry the date is wanted again: 36 hours.
const LONG: u64 = 129_600;

/// Returns the number of the day that the text says as `2026-03-09`, if it says one.
fn day_in(alloc: Global, date: &str) -> Result<Option<i32>, AllocError> {
    let text = format!(in alloc; "{date}T00:00:00")?;
    match Moment::read(text.as_str()) {
        Some(at) => Ok(Some(at.day())),
        None => Ok(None),
    }
}

/// Returns the day of the date that was said last beside the book, if one was.
pub fn said_day<L: Shelf>(alloc: Global, shelf: &L) -> Option<i32> {
    let (_, bytes) = shelf.take(alloc, NAME)?;
    let date = std::str::from_utf8(bytes.as_slice()).ok()?;
    day_in(alloc, date).ok()?
}

/// Reports whether the word enters commands of a branch.
pub(crate) fn enters_acts(act: &TillAct) -> bool
    ensures { result ≡ spec.enters_acts act.now }
{
    match act {
        TillAct::Do(_) | TillAct::ReturnCopy(_) | TillAct::Again { .. } => true,
        TillAct::Office(_) | TillAct::Send | TillAct::Look(_) | TillAct::Waiting => false,
        TillAct::Last(_) | TillAct::Help | TillAct::Init(_) | TillAct::Import { .. } => false,
        TillAct::Prompt | TillAct::Zone(_) | TillAct::Day(_) | TillAct::Today(_) => false,
        TillAct::Slip | TillAct::JoinIn(_) => false,
    }
}

/// A moment that the till's clock showed, and what the clock on the wall showed then.
#[derive(Clone, Copy)]
struct Clocks {
    till: Moment,
    wall: Moment,
}

/// Reads both clocks.
fn read_clocks<K: WallClock, V: Server, L: Shelf>(
    desk: &Desk<'_, K, V, L>,
) -> Result<Clocks, TillFault>
    ensures till { IfOk result (λ it. local_clock (K.shows desk.now.clock.now) desk.now.settings.now.zone
        (seconds_of it.till)) }
    ensures wall { IfOk result (λ it. spec.IsOnWall desk.now.wall (offset_of desk.now.settings.now.zone)
        it.till it.wall) }
{
    let till = desk.now()?;
    let wall = desk.on_wall(till);
    Ok(Clocks { till, wall })
}

/// Returns the number of the day that the clock on the wall shows.
pub(crate) fn wall_day<K: WallClock, V: Server, L: Shelf>(
    desk: &Desk<'_, K, V, L>,
) -> Result<i32, TillFault> {
    let Clocks { wall, .. } = read_clocks(desk)?;
    Ok(wall.day())
}

/// Returns the last entry's moment, or none if there is no entry or it has none.
fn last_moment(book: &Book) -> Option<Moment>
    ensures { result ≡ spec.last_moment book.now.place.entries book.now.last }
{
    if book.place.entries == 0 {
        None
    } else {
        book.last
    }
}

/// Tests whether the last entry is at most 36 hours before that moment.
fn is_near(last: Option<Moment>, now: Moment) -> bool
    ensures { result ≡ true → spec.IsNear last now }
{
    match last {
        Some(last) => now.seconds().saturating_sub(last.seconds()) <= LONG,
        None => false,
    }
}

/// Tests whether the day that was said is that of the moment.
fn is_said(said: Option<i32>, wall: Moment) -> bool
    ensures { result ≡ true → said ≡ Some (pos (day_of wall)) }
{
    let Some(said) = said else {
        return false;
    };
    said == wall.day()
}

/// Tests that commands may be entered: the last entry is at most 36 hours ago, or the date of the clock on the wall was
/// said.
pub(crate) fn dated<K: WallClock, V: Server, L: Shelf>(
    desk: &Desk<'_, K, V, L>,
    book: &Book,
) -> Result<(), TillFault>
    ensures { OnOk result (spec.HasDate (local_clock (K.shows desk.now.clock.now) desk.now.settings.now.zone)
        desk.now.wall (offset_of desk.now.settings.now.zone) desk.now.said_day
        (spec.last_moment book.now.place.entries book.now.last)) }
{
    let it = read_clocks(desk)?;
    if is_near(last_moment(book), it.till) {
        return Ok(());
    }
    if is_said(desk.said_day, it.wall) {
        return Ok(());
    }
    Err(TillFault::Undated)
}

/// Tests that a word may be entered, if it enters commands, and notes whose drawer its entries are.
pub(crate) fn dated_if<K: WallClock, V: Server, L: Shelf>(
    desk: &Desk<'_, K, V, L>,
    book: &Book,
    enters: bool,
) -> Result<(), TillFault>
    ensures { enters ≡ true → OnOk result (spec.HasDate
        (local_clock (K.shows desk.now.clock.now) desk.now.settings.now.zone) desk.now.wall
        (offset_of desk.now.settings.now.zone) desk.now.said_day
        (spec.last_moment book.now.place.entries book.now.last)) }
{
    if !enters {
        return Ok(());
    }
    dated(desk, book)?;
    note_drawer(desk.alloc, desk.shelf, desk.drawer, book.place.entries)
}

/// The day of a date that was said, and a moment of the clock on the wall on that day.
#[derive(Clone, Copy)]
struct Accepted {
    said: i32,
    wall: Moment,
}

/// Puts the date beside the book, if it is the one that the clock on the wall shows. Fails with `OtherDay` if it is
/// another date.
fn accept_day<K: WallClock, V: Server, L: Shelf>(
    desk: &Desk<'_, K, V, L>,
    date: &str,
) -> Result<Accepted, TillFault>
    ensures shown { IfOk result (λ it. spec.IsShownOnWall
        (local_clock (K.shows desk.now.clock.now) desk.now.settings.now.zone) desk.now.wall
        (offset_of desk.now.settings.now.zone) it.wall) }
    ensures said { IfOk result (λ it. it.said ≡ pos (day_of it.wall)) }
{
    let Some(said) = day_in(desk.alloc, date)? else {
        return Err(TillFault::NoDate);
    };
    let Clocks { wall, .. } = read_clocks(desk)?;
    let clock = wall.day();
    if said != clock {
        return Err(TillFault::OtherDay { clock, said });
    }
    let now = desk.seconds()?;
    desk.shelf.put(desk.alloc, NAME, now, date.as_bytes());
    if said_day(desk.alloc, desk.shelf) != Some(said) {
        return Err(TillFault::System);
    }
    Ok(Accepted { said, wall })
}

/// Accepts the date as today's, and returns the number of its day.
pub(crate) fn day_said<K: WallClock, V: Server, L: Shelf>(
    desk: &Desk<'_, K, V, L>,
    date: &str,
) -> Result<i32, TillFault>
    ensures { IfOk result (λ day. spec.IsDayOnWall
        (local_clock (K.shows desk.now.clock.now) desk.now.settings.now.zone) desk.now.wall
        (offset_of desk.now.settings.now.zone) day) }
{
    let Accepted { said, .. } = accept_day(desk, date)?;
    Ok(said)
}

/// Returns the name of the moment's day of the week.
fn weekday(at: Moment) -> &'static str
    ensures { result.now ≡ spec.weekday_text at }
{
    match at.seconds() / 86_400 % 7 {
        0 => "Thursday",
        1 => "Friday",
        2 => "Saturday",
        3 => "Sunday",
        4 => "Monday",
        5 => "Tuesday",
        _ => "Wednesday",
    }
}

/// Returns the line that says a date with its day of the week.
fn today_line(alloc: Global, at: Moment) -> Result<String, AllocError>
    ensures { IfOk result (λ s. string_bytes s ≡ spec.today_text at) }
{
    let (weekday, words) = (weekday(at), day_words(alloc, at)?);
    format!(in alloc; "Today is {weekday} {words}.")
}

/// Accepts the date as today's, puts it beside the book, and says it with its day of the week.
pub(crate) fn today<K: WallClock, V: Server, L: Shelf>(
    desk: &Desk<'_, K, V, L>,
    date: &str,
) -> Result<Said, TillFault>
    ensures says { IfOk result (λ said. spec.SaysToday
        (local_clock (K.shows desk.now.clock.now) desk.now.settings.now.zone) desk.now.wall
        (offset_of desk.now.settings.now.zone) (string_bytes said.text)) }
    ensures status { IfOk result (λ said. said.status ≡ 0) }
{
    let Accepted { wall, .. } = accept_day(desk, date)?;
    let mut said = Said::done(desk.alloc);
    let line = today_line(desk.alloc, wall)?;
    said.line(line.as_str())?;
    Ok(said)
}
