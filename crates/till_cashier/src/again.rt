//! What was refused because the branch had a later moment is given once more.

ghost use Rattle.std.specs.Prelude.{◌≡◌, ◌<◌, ◌≤◌, [], ℕ, false, None, Some, Err, length, IfOk, OnOk, string_bytes};
ghost use Rattle.sqlite.specs.Held.{state};
ghost use Rattle.sqlite.specs.State.{HasCleanDisk};
ghost use Rattle.shop_types.specs.Seen.{seen_act};
ghost use Rattle.till_book.specs.Steps.{Stays};
ghost use Rattle.till_work.specs.Exchanged.{IsExchanged};
ghost use Rattle.till_work.specs.Entering.{IsTillsBook};
ghost use Rattle.till_work.specs.Desk.{GoesOn, HasPlace};
ghost use Rattle.till_work.specs.Stops.{IsLater, Leaves};
ghost use Rattle.till_cashier.specs.Clock.{local_clock};
ghost use Rattle.till_cashier.specs.Faults.{IsBookKept, giver_of};
ghost use Rattle.till_requests.specs.Zones.{offset_of};
ghost use Rattle.till_cashier.specs.Adding.{AddsFirst, AddsRepeats, AddsTries};
ghost use Rattle.till_cashier.specs.Giving.{GivesAct};
ghost use Rattle.till_cashier.specs.Showing.{AddsMore, SaysAgain, SaysNothing};
ghost use Rattle.till_cashier.specs.Again.{GivesBook, GivesAll};

use crate::book::Book;
use crate::caches::Shelf;
use crate::clock::WallClock;
use crate::commands::give;
use crate::desk::Desk;
use crate::entries::EntriesAfter;
use crate::fault::TillFault;
use crate::lists_of_entries::entries_after;
use crate::refused::{Repeat, repeats_in};
use crate::said::Said;
use crate::telling::fault_line;
use sqlite::{Alter, Connection};
use std::alloc::Global;
use till_work::{Server, Watch};

/// The smallest status of a word that ended before all was given.
const STOPPED: u8 = 3;

/// Gives an act once more, by whoever gave it.
fn give_again<S: Alter, K: WallClock, V: Server, L: Shelf, W: Watch>(
    desk: &Desk<'_, K, V, L>,
    conn: &mut Connection<S>,
    book: &mut Book,
    it: &Repeat,
    watch: &mut W,
) -> Result<(), TillFault>
    requires { conn.old.in_transaction ≡ false }
    ensures ended { conn.new.in_transaction ≡ false }
    ensures clean { HasCleanDisk (state S.Store conn.new) → HasCleanDisk (state S.Store conn.old) }
    ensures given { HasCleanDisk (state S.Store conn.new)
        → OnOk result (GivesAct (IsExchanged (V.opens desk.now.server.now) V.Reader.remaining V.Writer.contents)
        (local_clock (K.shows desk.now.clock.now) desk.now.settings.now.zone) desk.now.settings.now.mark desk.now.settings.now.token
        (giver_of desk.now.settings.now.staff (Some it.now.staff)) (seen_act it.now.act) book.old.place
        (state S.Store conn.old) book.new.place (state S.Store conn.new)) }
    ensures keeps { HasCleanDisk (state S.Store conn.new) → IsBookKept result
        → GoesOn (IsExchanged (V.opens desk.now.server.now) V.Reader.remaining V.Writer.contents)
        desk.now.settings.now.mark book.old.place (state S.Store conn.old) book.new.place
        (state S.Store conn.new) }
    ensures adds { HasCleanDisk (state S.Store conn.new) → IsBookKept result
        → AddsTries (local_clock (K.shows desk.now.clock.now) desk.now.settings.now.zone)
        desk.now.settings.now.mark desk.now.settings.now.token
        (giver_of desk.now.settings.now.staff (Some it.now.staff)) (seen_act it.now.act) book.old.place
        (state S.Store conn.old) book.new.place (state S.Store conn.new) }
    ensures crash { HasCleanDisk (state S.Store conn.new) → Leaves (HasPlace book.old.place (state S.Store conn.old))
        (IsTillsBook desk.now.settings.now.mark) (IsLater (IsExchanged (V.opens desk.now.server.now) V.Reader.remaining V.Writer.contents))
        (state S.Store conn.new) }
{
    let theirs = desk.by(it.staff);
    let given = give(&theirs, conn, book, &it.act, watch);
    drop(theirs);
    match given {
        Ok(told) => {
            drop(told);
            Ok(())
        }
        Err(fault) => Err(fault),
    }
}

/// Returns the fault at which giving stopped. Fails only if the book failed.
fn stopped_by(fault: TillFault) -> Result<Option<TillFault>, TillFault>
    ensures other { IfOk result (λ it. it ≡ Some fault) }
    ensures book { fault ≡ TillFault.Book → result ≡ Err TillFault.Book }
{
    match fault {
        TillFault::Book => Err(TillFault::Book),
        other => Ok(Some(other)),
    }
}

/// Gives acts once more, one after another. Returns the first fault, after which none was given. Fails only if the book
/// failed.
fn give_each<S: Alter, K: WallClock, V: Server, L: Shelf, W: Watch>(
    desk: &Desk<'_, K, V, L>,
    conn: &mut Connection<S>,
    book: &mut Book,
    acts: &[Repeat],
    watch: &mut W,
) -> Result<Option<TillFault>, TillFault>
    requires { conn.old.in_transaction ≡ false }
    ensures ended { conn.new.in_transaction ≡ false }
    ensures clean { HasCleanDisk (state S.Store conn.new) → HasCleanDisk (state S.Store conn.old) }
    ensures given { HasCleanDisk (state S.Store conn.new) → IfOk result (λ stopped. stopped ≡ None
        → GivesBook (IsExchanged (V.opens desk.now.server.now) V.Reader.remaining V.Writer.contents)
        (local_clock (K.shows desk.now.clock.now) desk.now.settings.now.zone) desk.now.settings.now.mark desk.now.settings.now.token
        desk.now.settings.now.staff (length acts.now) acts.now book.old.place
        (state S.Store conn.old) book.new.place (state S.Store conn.new)) }
    ensures keeps { HasCleanDisk (state S.Store conn.new) → IsBookKept result
        → GoesOn (IsExchanged (V.opens desk.now.server.now) V.Reader.remaining V.Writer.contents)
        desk.now.settings.now.mark book.old.place (state S.Store conn.old) book.new.place
        (state S.Store conn.new) }
    ensures adds { HasCleanDisk (state S.Store conn.new) → IsBookKept result
        → (n : ℕ) × AddsFirst (local_clock (K.shows desk.now.clock.now) desk.now.settings.now.zone)
        desk.now.settings.now.mark desk.now.settings.now.token n acts.now book.old.place
        (state S.Store conn.old) book.new.place (state S.Store conn.new) }
    ensures crash { HasCleanDisk (state S.Store conn.new) → Leaves (HasPlace book.old.place (state S.Store conn.old))
        (IsTillsBook desk.now.settings.now.mark) (IsLater (IsExchanged (V.opens desk.now.server.now) V.Reader.remaining V.Writer.contents))
        (state S.Store conn.new) }
{
    'givings: for it in acts {
        match give_again(desk, conn, book, it, watch) {
            Ok(()) => continue,
            Err(fault) => return stopped_by(fault),
        }
    }
    Ok(None)
}

/// Returns the status of a word that ended before all was given.
fn stopped_status(fault: TillFault) -> u8
    ensures { 3 ≤ result }
{
    let status = fault.status();
    if status < STOPPED { STOPPED } else { status }
}

/// Adds the fault that ended it.
fn stopped_said(alloc: Global, said: Said, fault: TillFault) -> Result<Said, TillFault>
    ensures status { IfOk result (λ said. said.status < 3 → ⊥) }
    ensures text { IfOk result (λ it. AddsMore (string_bytes said.text) (string_bytes it.text) it.status) }
{
    let mut said = said;
    let line = fault_line(alloc, fault)?;
    said.line(line.as_str())?;
    let Said { text, .. } = said;
    Ok(Said {
        text,
        status: stopped_status(fault),
    })
}

/// Says what was left out, below the entries that were sent and entered.
fn left_said(left: &str, table: Said) -> Result<Said, TillFault>
    ensures text { IfOk result (λ it. AddsMore (string_bytes table.text) (string_bytes it.text) it.status) }
    ensures left { IfOk result (λ it. it.status ≡ 0 → left.now ≡ []) }
{
    let mut said = table;
    if !left.is_empty() {
        said.status = 1;
        said.line(left)?;
    }
    Ok(said)
}

/// Says what was left out, and then the entries that were sent and entered. If a fault ended it, says that too.
fn again_said(
    alloc: Global,
    left: &str,
    table: Said,
    stopped: Option<TillFault>,
) -> Result<Said, TillFault>
    ensures given { IfOk result (λ said. said.status < 3 → stopped ≡ None) }
    ensures text { IfOk result (λ it. AddsMore (string_bytes table.text) (string_bytes it.text) it.status) }
    ensures left { IfOk result (λ it. it.status ≡ 0 → left.now ≡ []) }
{
    let said = left_said(left, table)?;
    match stopped {
        Some(fault) => stopped_said(alloc, said, fault),
        None => Ok(said),
    }
}

/// Says that nothing is to be given once more, or what was left out.
fn nothing_said(alloc: Global, left: &str) -> Result<Said, TillFault>
    ensures said { IfOk result (λ said. SaysNothing (string_bytes said.text) said.status) }
    ensures left { IfOk result (λ said. said.status ≡ 0 → left.now ≡ []) }
{
    let mut said = Said::done(alloc);
    if left.is_empty() {
        said.line("nothing is to be entered again")?;
    } else {
        said.status = 1;
        said.line(left)?;
    }
    Ok(said)
}

/// Gives once more what was refused because the branch had a later moment, and wasn't repeated yet. Each act is given by
/// whoever gave it, the oldest first. Says the outcome of each. After a fault the rest is left.
pub(crate) fn again<S: Alter, K: WallClock, V: Server, L: Shelf, W: Watch>(
    desk: &Desk<'_, K, V, L>,
    conn: &mut Connection<S>,
    book: &mut Book,
    late: bool,
    watch: &mut W,
) -> Result<Said, TillFault>
    requires { conn.old.in_transaction ≡ false }
    ensures ended { conn.new.in_transaction ≡ false }
    ensures clean { HasCleanDisk (state S.Store conn.new) → HasCleanDisk (state S.Store conn.old) }
    ensures given { HasCleanDisk (state S.Store conn.new) → IfOk result (λ said. said.status < 3
        → GivesAll (IsExchanged (V.opens desk.now.server.now) V.Reader.remaining V.Writer.contents)
        (local_clock (K.shows desk.now.clock.now) desk.now.settings.now.zone) desk.now.settings.now.mark desk.now.settings.now.token
        desk.now.settings.now.staff book.old.place (state S.Store conn.old) book.new.place (state S.Store conn.new)) }
    ensures keeps { HasCleanDisk (state S.Store conn.new) → IsBookKept result
        → GoesOn (IsExchanged (V.opens desk.now.server.now) V.Reader.remaining V.Writer.contents)
        desk.now.settings.now.mark book.old.place (state S.Store conn.old) book.new.place
        (state S.Store conn.new) }
    ensures adds { HasCleanDisk (state S.Store conn.new) → IsBookKept result
        → AddsRepeats (local_clock (K.shows desk.now.clock.now) desk.now.settings.now.zone)
        desk.now.settings.now.mark desk.now.settings.now.token book.old.place (state S.Store conn.old) book.new.place
        (state S.Store conn.new) }
    ensures says { HasCleanDisk (state S.Store conn.new) → IfOk result (λ said. SaysAgain
        (IsExchanged (V.opens desk.now.server.now) V.Reader.remaining V.Writer.contents)
        (local_clock (K.shows desk.now.clock.now) desk.now.settings.now.zone)
        desk.now.wall (offset_of desk.now.settings.now.zone) desk.now.settings.now.staff desk.now.settings.now.mark
        desk.now.settings.now.token book.old.place (state S.Store conn.old) book.new.place (state S.Store conn.new) (string_bytes said.text)
        said.status) }
    ensures crash { HasCleanDisk (state S.Store conn.new) → Leaves (HasPlace book.old.place (state S.Store conn.old))
        (IsTillsBook desk.now.settings.now.mark) (IsLater (IsExchanged (V.opens desk.now.server.now) V.Reader.remaining V.Writer.contents))
        (state S.Store conn.new) }
{
    let first = book.place.replies;
    let entries = EntriesAfter::read(desk.alloc, conn, 0)?;
    let repeats = repeats_in(desk, &entries, late)?;
    if repeats.acts.is_empty() {
        return nothing_said(desk.alloc, repeats.left.as_str());
    }
    let stopped = match give_each(desk, conn, book, repeats.acts.as_slice(), watch) {
        Ok(stopped) => stopped,
        Err(fault) => return Err(fault),
    };
    let table = entries_after(desk, conn, first, "")?;
    again_said(desk.alloc, repeats.left.as_str(), table, stopped)
}
