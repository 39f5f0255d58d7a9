//! What the prompt asks before a word: today's date, if that has to be said first.

ghost use Rattle.std.specs.Prelude.{◌≡◌, true, false, IfOk, IsSome};
ghost use Rattle.sqlite.specs.Held.{state};
ghost use Rattle.sqlite.specs.State.{HasCleanDisk};
ghost use Rattle.till_book.specs.Steps.{Stays};
ghost use Rattle.till_requests.specs.Zones.{offset_of};
ghost use Rattle.till_cashier.specs.Asked.{IsSaidDay, Grows};
ghost use Rattle.till_cashier.specs.Clock.{local_clock};
ghost use Rattle.till_cashier.specs.LastMoment.{TellsMoment};
ghost use Rattle.till_cashier.specs.Today as spec;

use crate::book::Book;
use crate::caches::Shelf;
use crate::clock::WallClock;
use crate::desk::Desk;
use crate::fault::TillFault;
use crate::today::{dated, day_said, enters_acts};
use http_messages::write_whole;
use shop_types::Moment;
use sqlite::{Alter, Connection};
use std::io::Write;
use till_words::TillAct;
use till_work::Server;

/// What is known before a word: the last entry's moment, and the day of the date that was said last.
#[derive(Clone, Copy)]
pub struct Asked {
    pub last: Option<Moment>,
    pub said_day: Option<i32>,
}

/// Reads the next line of standard input. Returns none at its end.
fn next_line(rt: &HostRuntime) -> Option<String> {
    'lines: for line in rt.lines(rt.alloc()) {
        return line.ok();
    }
    None
}

/// Tests whether the date has to be said before the word. At head office's book it never has.
fn wants_day<K: WallClock, V: Server, L: Shelf>(
    desk: &Desk<'_, K, V, L>,
    book: &Book,
    act: &TillAct,
) -> bool
    ensures branch { result ≡ true → IsSome desk.now.settings.now.staff }
    ensures enters { result ≡ true → spec.enters_acts act.now ≡ true }
{
    desk.settings.staff.is_some()
        && book.is_own
        && enters_acts(act)
        && matches!(dated(desk, book), Err(TillFault::Undated))
}

/// Asks for today's date, and returns the number of its day. The word `today` may be before the date.
fn ask_day<K: WallClock, V: Server, L: Shelf, W: Write>(
    rt: &HostRuntime,
    desk: &Desk<'_, K, V, L>,
    out: &mut W,
) -> Result<i32, TillFault>
    ensures day { IfOk result (λ day. spec.IsDayOnWall
        (local_clock (K.shows desk.now.clock.now) desk.now.settings.now.zone) desk.now.wall
        (offset_of desk.now.settings.now.zone) day) }
    ensures grows { Grows (W.contents out.old) (W.contents out.new) }
{
    write_whole(out, b"Today's date, as 2026-03-09: ")?;
    out.flush()?;
    match next_line(rt) {
        Some(line) => {
            let date = line.as_str().trim();
            day_said(desk, date.strip_prefix("today ").unwrap_or(date))
        }
        None => Err(TillFault::Undated),
    }
}

/// Reads the last entry's moment. Asks for today's date if the word enters commands, the date has to be said first, and
/// a question can be asked. The book stays.
pub fn ask_before<S: Alter, K: WallClock, V: Server, L: Shelf, W: Write>(
    rt: &HostRuntime,
    desk: &Desk<'_, K, V, L>,
    conn: &mut Connection<S>,
    act: &TillAct,
    is_asked: bool,
    out: &mut W,
) -> Result<Asked, TillFault>
    requires { conn.old.in_transaction ≡ false }
    ensures ended { conn.new.in_transaction ≡ false }
    ensures clean { HasCleanDisk (state S.Store conn.new) → HasCleanDisk (state S.Store conn.old) }
    ensures stays { HasCleanDisk (state S.Store conn.new) → Stays (state S.Store conn.old) (state S.Store conn.new) }
    ensures last { HasCleanDisk (state S.Store conn.new)
        → IfOk result (λ asked. TellsMoment asked.last (state S.Store conn.old)) }
    ensures said { IfOk result (λ asked. IsSaidDay
        (local_clock (K.shows desk.now.clock.now) desk.now.settings.now.zone) desk.now.wall
        (offset_of desk.now.settings.now.zone) is_asked desk.now.settings.now.staff act.now desk.now.said_day
        asked.said_day) }
    ensures grows { Grows (W.contents out.old) (W.contents out.new) }
{
    let book = Book::read(desk.alloc, desk.routes, &desk.settings.mark, conn)?;
    let last = book.last;
    if !is_asked || !wants_day(desk, &book, act) {
        return Ok(Asked {
            last,
            said_day: desk.said_day,
        });
    }
    let day = ask_day(rt, desk, out)?;
    Ok(Asked {
        last,
        said_day: Some(day),
    })
}
