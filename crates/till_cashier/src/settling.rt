//! Refused entries that may have been sent more than once are made sure of, once a later one was accepted.

ghost use Rattle.std.specs.Prelude.{◌≡◌, ◌<◌, false};
ghost use Rattle.sqlite.specs.Held.{state};
ghost use Rattle.sqlite.specs.State.{HasCleanDisk};
ghost use Rattle.shop_model.specs.Values.{Text};
ghost use Rattle.till_book.specs.Steps.{Rests, Stays};
ghost use Rattle.till_work.specs.Exchanged.{IsExchanged};
ghost use Rattle.till_work.specs.Desk.{IsBookKept as IsDeskKept};
ghost use Rattle.till_work.specs.Stops.{IsAny, IsSettledAfter, Leaves};
ghost use Rattle.till_cashier.specs.Faults.{IsBookKept};
ghost use Rattle.till_cashier.specs.Stops.{LeavesATillsBook};
ghost use Rattle.till_cashier.specs.Word.{EntersNothing, KeepsATillsBook};

use crate::caches::Shelf;
use crate::clock::WallClock;
use crate::desk::Desk;
use crate::fault::TillFault;
use crate::said::Said;
use sqlite::{Alter, Connection};
use std::alloc::Global;
use std::time::Duration;
use till_book::{EntryNumber, last_accepted, unsure_of};
use till_client::Answer;
use till_shows::reply_line;
use till_work::{DeskFault, Server, Settled, settle};

/// For how many milliseconds after a word another refused entry is asked about.
const SOON: u64 = 500;

/// Returns the numbers of the entries to make sure of, at most ten: those before the last accepted one that were
/// refused, may still act, and may get another reply. The book stays.
fn open_entries<S: Alter>(
    alloc: Global,
    conn: &mut Connection<S>,
) -> Result<Vec<EntryNumber>, TillFault>
    requires { conn.old.in_transaction ≡ false }
    ensures ended { conn.new.in_transaction ≡ false }
    ensures clean { HasCleanDisk (state S.Store conn.new) → HasCleanDisk (state S.Store conn.old) }
    ensures stays { HasCleanDisk (state S.Store conn.new) → Stays (state S.Store conn.old) (state S.Store conn.new) }
{
    let last = match last_accepted(conn) {
        Ok(Some(last)) => last,
        Ok(None) => return Ok(Vec::new(alloc)),
        Err(_) => return Err(TillFault::Book),
    };
    match unsure_of(alloc, conn, last.number) {
        Ok(unsure) => Ok(unsure),
        Err(_) => Err(TillFault::Book),
    }
}

/// Returns the line for a reply to an accepted entry. Head office's bodies are said as they are.
fn settled_line<K: WallClock, V: Server, L: Shelf>(
    desk: &Desk<'_, K, V, L>,
    answer: &Answer,
) -> Result<String, TillFault> {
    let body = answer.body.as_slice();
    if desk.settings.staff.is_some() {
        return Ok(reply_line(desk.alloc, body)?);
    }
    match std::str::from_utf8(body) {
        Ok(text) => Ok(String::from_str(desk.alloc, text)?),
        Err(_) => Err(TillFault::Foreign),
    }
}

/// Says which reply an entry got that was sent once more, if it has acted after all. Returns whether another may be
/// sent.
fn say_settled<K: WallClock, V: Server, L: Shelf>(
    desk: &Desk<'_, K, V, L>,
    number: u32,
    settled: Result<Settled, DeskFault>,
    said: &mut Said,
) -> Result<bool, TillFault>
    ensures { IsBookKept result → IsDeskKept settled }
{
    match settled {
        Ok(Settled::Acted(answer)) => {
            let alloc = desk.alloc;
            let line = settled_line(desk, &answer)?;
            said.line(format!(in alloc;
                "Entry {number} was refused at first, and was done all the same: {line}"
            )?.as_str())?;
            Ok(true)
        }
        Ok(_) => Ok(true),
        Err(DeskFault::Book) => Err(TillFault::Book),
        Err(
            DeskFault::Full
            | DeskFault::Memory
            | DeskFault::NoCommand
            | DeskFault::OtherKey
            | DeskFault::NotLater
            | DeskFault::OtherBook
            | DeskFault::NoEntry
            | DeskFault::Unopened
            | DeskFault::Unanswered(_)
            | DeskFault::NotNow
            | DeskFault::NotKnown,
        ) => Ok(false),
    }
}

/// Makes sure of an entry, and says so if it has acted after all. Returns whether another may be asked for.
fn settle_one<S: Alter, K: WallClock, V: Server, L: Shelf>(
    desk: &Desk<'_, K, V, L>,
    conn: &mut Connection<S>,
    number: u32,
    said: &mut Said,
) -> Result<bool, TillFault>
    requires idle { conn.old.in_transaction ≡ false }
    requires numbered { 0 < number }
    ensures ended { conn.new.in_transaction ≡ false }
    ensures clean { HasCleanDisk (state S.Store conn.new) → HasCleanDisk (state S.Store conn.old) }
    ensures same { HasCleanDisk (state S.Store conn.new) → IsBookKept result
        → EntersNothing (IsExchanged (V.opens desk.now.server.now) V.Reader.remaining V.Writer.contents) (state S.Store
        conn.old) (state S.Store conn.new) }
    ensures crash { HasCleanDisk (state S.Store conn.new) → Leaves (Rests (state S.Store conn.old)) IsAny
        (IsSettledAfter (IsExchanged (V.opens desk.now.server.now) V.Reader.remaining V.Writer.contents)) (state S.Store conn.new) }
{
    let Ok((mut reader, mut writer)) = desk.server.connect() else {
        return Ok(false);
    };
    let settled = settle(
        desk.alloc,
        desk.routes,
        conn,
        number,
        &mut reader,
        &mut writer,
    );
    say_settled(desk, number, settled, said)
}

/// Tests whether the clock has passed that time.
fn is_over<K: WallClock, V: Server, L: Shelf>(
    desk: &Desk<'_, K, V, L>,
    end: Option<Duration>,
) -> bool {
    match end {
        Some(end) => match desk.clock.monotonic() {
            Ok(now) => now >= end,
            Err(_) => true,
        },
        None => false,
    }
}

/// Makes sure of refused entries. Leaves the rest for another time after one that gets no answer, and once the clock has
/// passed the end. Reports whether it left none.
pub(crate) fn settle_refused<S: Alter, K: WallClock, V: Server, L: Shelf>(
    desk: &Desk<'_, K, V, L>,
    conn: &mut Connection<S>,
    entries: &[EntryNumber],
    end: Option<Duration>,
    said: &mut Said,
) -> Result<bool, TillFault>
    requires { conn.old.in_transaction ≡ false }
    ensures ended { conn.new.in_transaction ≡ false }
    ensures clean { HasCleanDisk (state S.Store conn.new) → HasCleanDisk (state S.Store conn.old) }
    ensures same { HasCleanDisk (state S.Store conn.new) → IsBookKept result
        → EntersNothing (IsExchanged (V.opens desk.now.server.now) V.Reader.remaining V.Writer.contents) (state S.Store
        conn.old) (state S.Store conn.new) }
    ensures crash { HasCleanDisk (state S.Store conn.new) → Leaves (Rests (state S.Store conn.old)) IsAny
        (IsSettledAfter (IsExchanged (V.opens desk.now.server.now) V.Reader.remaining V.Writer.contents)) (state S.Store conn.new) }
{
    'entries: for entry in entries {
        if entry.number == 0 || is_over(desk, end) {
            return Ok(false);
        }
        match settle_one(desk, conn, entry.number, said) {
            Ok(true) => continue,
            Ok(false) => return Ok(false),
            Err(fault) => return Err(fault),
        }
    }
    Ok(true)
}

/// Makes sure of some refused entries of a branch's book, until the clock has passed the end.
fn make_sure_until<S: Alter, K: WallClock, V: Server, L: Shelf>(
    desk: &Desk<'_, K, V, L>,
    conn: &mut Connection<S>,
    end: Option<Duration>,
    said: &mut Said,
) -> Result<(), TillFault>
    requires { conn.old.in_transaction ≡ false }
    ensures ended { conn.new.in_transaction ≡ false }
    ensures clean { HasCleanDisk (state S.Store conn.new) → HasCleanDisk (state S.Store conn.old) }
    ensures same { HasCleanDisk (state S.Store conn.new) → IsBookKept result
        → EntersNothing (IsExchanged (V.opens desk.now.server.now) V.Reader.remaining V.Writer.contents) (state S.Store
        conn.old) (state S.Store conn.new) }
    ensures keeps { HasCleanDisk (state S.Store conn.new) → IsBookKept result → (mark : Text)
        → KeepsATillsBook (IsExchanged (V.opens desk.now.server.now) V.Reader.remaining V.Writer.contents) mark (state
        S.Store conn.old) (state S.Store conn.new) }
    ensures crash { HasCleanDisk (state S.Store conn.new) → Leaves (Rests (state S.Store conn.old)) IsAny
        (IsSettledAfter (IsExchanged (V.opens desk.now.server.now) V.Reader.remaining V.Writer.contents)) (state S.Store conn.new) }
    ensures crash_keeps { HasCleanDisk (state S.Store conn.new) → (mark : Text)
        → LeavesATillsBook (IsExchanged (V.opens desk.now.server.now) V.Reader.remaining V.Writer.contents) mark (state
        S.Store conn.old) (state S.Store conn.new) }
{
    if desk.settings.staff.is_none() || desk.line.is_down() {
        return Ok(());
    }
    let entries = open_entries(desk.alloc, conn)?;
    match settle_refused(desk, conn, entries.as_slice(), end, said) {
        Ok(_) => {}
        Err(fault) => return Err(fault),
    }
    Ok(())
}

/// Makes sure of some refused entries of a branch's book, if a later one was accepted. Says which of them have acted
/// all the same. Nothing is entered or recorded but their settlements, unless the book failed. Head office's commands
/// have no moment, so one that was refused could still be done: it isn't sent again here. While the line is down nothing
/// is.
pub fn make_sure<S: Alter, K: WallClock, V: Server, L: Shelf>(
    desk: &Desk<'_, K, V, L>,
    conn: &mut Connection<S>,
    said: &mut Said,
) -> Result<(), TillFault>
    requires { conn.old.in_transaction ≡ false }
    ensures ended { conn.new.in_transaction ≡ false }
    ensures clean { HasCleanDisk (state S.Store conn.new) → HasCleanDisk (state S.Store conn.old) }
    ensures same { HasCleanDisk (state S.Store conn.new) → IsBookKept result
        → EntersNothing (IsExchanged (V.opens desk.now.server.now) V.Reader.remaining V.Writer.contents) (state S.Store
        conn.old) (state S.Store conn.new) }
    ensures keeps { HasCleanDisk (state S.Store conn.new) → IsBookKept result → (mark : Text)
        → KeepsATillsBook (IsExchanged (V.opens desk.now.server.now) V.Reader.remaining V.Writer.contents) mark (state
        S.Store conn.old) (state S.Store conn.new) }
    ensures crash { HasCleanDisk (state S.Store conn.new) → Leaves (Rests (state S.Store conn.old)) IsAny
        (IsSettledAfter (IsExchanged (V.opens desk.now.server.now) V.Reader.remaining V.Writer.contents)) (state S.Store conn.new) }
    ensures crash_keeps { HasCleanDisk (state S.Store conn.new) → (mark : Text)
        → LeavesATillsBook (IsExchanged (V.opens desk.now.server.now) V.Reader.remaining V.Writer.contents) mark (state
        S.Store conn.old) (state S.Store conn.new) }
{
    make_sure_until(desk, conn, None, said)
}

/// Does what `make_sure` does, but sends no entry later than half a second after the call. So a word's answer isn't
/// held up for longer than that and one exchange.
pub fn make_sure_soon<S: Alter, K: WallClock, V: Server, L: Shelf>(
    desk: &Desk<'_, K, V, L>,
    conn: &mut Connection<S>,
    said: &mut Said,
) -> Result<(), TillFault>
    requires { conn.old.in_transaction ≡ false }
    ensures ended { conn.new.in_transaction ≡ false }
    ensures clean { HasCleanDisk (state S.Store conn.new) → HasCleanDisk (state S.Store conn.old) }
    ensures same { HasCleanDisk (state S.Store conn.new) → IsBookKept result
        → EntersNothing (IsExchanged (V.opens desk.now.server.now) V.Reader.remaining V.Writer.contents) (state S.Store
        conn.old) (state S.Store conn.new) }
    ensures keeps { HasCleanDisk (state S.Store conn.new) → IsBookKept result → (mark : Text)
        → KeepsATillsBook (IsExchanged (V.opens desk.now.server.now) V.Reader.remaining V.Writer.contents) mark (state
        S.Store conn.old) (state S.Store conn.new) }
    ensures crash { HasCleanDisk (state S.Store conn.new) → Leaves (Rests (state S.Store conn.old)) IsAny
        (IsSettledAfter (IsExchanged (V.opens desk.now.server.now) V.Reader.remaining V.Writer.contents)) (state S.Store conn.new) }
    ensures crash_keeps { HasCleanDisk (state S.Store conn.new) → (mark : Text)
        → LeavesATillsBook (IsExchanged (V.opens desk.now.server.now) V.Reader.remaining V.Writer.contents) mark (state
        S.Store conn.old) (state S.Store conn.new) }
{
    match desk.clock.monotonic() {
        Ok(now) => make_sure_until(
            desk,
            conn,
            Some(now.saturating_add(Duration::from_millis(SOON))),
            said,
        ),
        Err(_) => Ok(()),
    }
}
