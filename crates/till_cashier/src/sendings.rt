//! Sending what waits.

ghost use Rattle.std.specs.Prelude.{◌≡◌, ◌≤◌, false, IfOk, IfErr, OnOk, string_bytes};
ghost use Rattle.sqlite.specs.Held.{state};
ghost use Rattle.sqlite.specs.State.{HasCleanDisk};
ghost use Rattle.shop_model.specs.Values.{Text};
ghost use Rattle.till_book.specs.Steps.{Stays};
ghost use Rattle.till_work.specs.Exchanged.{IsExchanged};
ghost use Rattle.till_work.specs.Desk.{GoesOn, Grows, HasPlace, Sends, ReturnsLast};
ghost use Rattle.till_work.specs.Stops.{IsAny, IsSentAfter, Leaves};
ghost use Rattle.till_cashier.specs.Faults.{IsBookKept};
ghost use Rattle.till_requests.specs.Zones.{offset_of};
ghost use Rattle.till_cashier.specs.Adding.{AddsNoEntry};
ghost use Rattle.till_cashier.specs.Following.{AddsWaited};
ghost use Rattle.till_cashier.specs.Listing.{OfBook, ShowsSent};
ghost use Rattle.till_cashier.specs.Word.{FailsToSendAll, SendsAll};

use crate::book::Book;
use crate::caches::Shelf;
use crate::clock::WallClock;
use crate::desk::Desk;
use crate::fault::TillFault;
use crate::lists_of_entries::{entries_after, first_after};
use crate::said::Said;
use sqlite::{Alter, Connection};
use till_client::Answer;
use till_work::{Place, Server, Watch, send_waiting};

/// Sends all that waits. Returns the last reply, and none if nothing waited. If sending ended early, the fault is that
/// of the entry at which it did.
pub(crate) fn send_all<S: Alter, K: WallClock, V: Server, L: Shelf, W: Watch>(
    desk: &Desk<'_, K, V, L>,
    conn: &mut Connection<S>,
    place: &mut Place,
    watch: &mut W,
) -> Result<Option<Answer>, TillFault>
    requires { conn.old.in_transaction ≡ false }
    ensures ended { conn.new.in_transaction ≡ false }
    ensures clean { HasCleanDisk (state S.Store conn.new) → HasCleanDisk (state S.Store conn.old) }
    ensures sends { HasCleanDisk (state S.Store conn.new) → IsBookKept result
        → Sends (IsExchanged (V.opens desk.now.server.now) V.Reader.remaining V.Writer.contents) place.old
        (state S.Store conn.old) place.new (state S.Store conn.new) }
    ensures told { HasCleanDisk (state S.Store conn.new)
        → IfOk result (λ last. ReturnsLast (IsExchanged (V.opens desk.now.server.now) V.Reader.remaining V.Writer.contents)
        last place.old (state S.Store conn.old) place.new (state S.Store conn.new)) }
    ensures why { HasCleanDisk (state S.Store conn.new)
        → IfErr result (FailsToSendAll (IsExchanged (V.opens desk.now.server.now) V.Reader.remaining V.Writer.contents)
        (V.refuses desk.now.server.now) (V.opens desk.now.server.now) V.Writer.contents place.old (state S.Store
        conn.old) place.new (state S.Store conn.new)) }
    ensures all { OnOk result (place.old.replies ≤ place.old.entries → place.new.replies ≡ place.old.entries) }
    ensures crash { HasCleanDisk (state S.Store conn.new) → Leaves (HasPlace place.old (state S.Store conn.old)) IsAny
        (IsSentAfter (IsExchanged (V.opens desk.now.server.now) V.Reader.remaining V.Writer.contents)) (state S.Store conn.new) }
{
    match send_waiting(
        desk.alloc,
        desk.routes,
        desk.clock,
        desk.server,
        watch,
        conn,
        place,
    ) {
        Ok(last) => Ok(last),
        Err(fault) => Err(TillFault::from(fault)),
    }
}

/// Sends all that waits, and shows the outcome of each. If it returns a text, each entry has its reply.
pub(crate) fn send<S: Alter, K: WallClock, V: Server, L: Shelf, W: Watch>(
    desk: &Desk<'_, K, V, L>,
    conn: &mut Connection<S>,
    place: &mut Place,
    watch: &mut W,
) -> Result<Said, TillFault>
    requires { conn.old.in_transaction ≡ false }
    ensures ended { conn.new.in_transaction ≡ false }
    ensures clean { HasCleanDisk (state S.Store conn.new) → HasCleanDisk (state S.Store conn.old) }
    ensures sent { HasCleanDisk (state S.Store conn.new)
        → OnOk result (SendsAll (IsExchanged (V.opens desk.now.server.now) V.Reader.remaining V.Writer.contents) place.old
        (state S.Store conn.old) place.new (state S.Store conn.new)) }
    ensures keeps { HasCleanDisk (state S.Store conn.new) → IsBookKept result → (mark : Text)
        → GoesOn (IsExchanged (V.opens desk.now.server.now) V.Reader.remaining V.Writer.contents) mark place.old
        (state S.Store conn.old) place.new (state S.Store conn.new) }
    ensures grows { HasCleanDisk (state S.Store conn.new) → IsBookKept result
        → Grows (IsExchanged (V.opens desk.now.server.now) V.Reader.remaining V.Writer.contents) place.old (state S.Store
        conn.old) place.new (state S.Store conn.new) }
    ensures adds { HasCleanDisk (state S.Store conn.new) → IsBookKept result → (mark : Text)
        → AddsNoEntry mark place.old (state S.Store conn.old) place.new (state S.Store conn.new) }
    ensures says { HasCleanDisk (state S.Store conn.new) → IfOk result (λ said. OfBook place.old (state S.Store conn.old)
        (λ journal. ShowsSent (IsExchanged (V.opens desk.now.server.now) V.Reader.remaining V.Writer.contents)
        desk.now.wall (offset_of desk.now.settings.now.zone) desk.now.settings.now.staff journal
        (state S.Store conn.new) (string_bytes said.text))) }
    ensures status { IfOk result (λ said. said.status ≡ 0) }
    ensures crash { HasCleanDisk (state S.Store conn.new) → Leaves (HasPlace place.old (state S.Store conn.old)) IsAny
        (IsSentAfter (IsExchanged (V.opens desk.now.server.now) V.Reader.remaining V.Writer.contents)) (state S.Store conn.new) }
{
    let before = place.replies;
    match send_all(desk, conn, place, watch) {
        Ok(_) => {}
        Err(fault) => return Err(fault),
    }
    entries_after(desk, conn, before, "nothing waits")
}

/// Shows the entries that waited when the book was there, as a table. Returns none if nothing waited. The book stays.
pub(crate) fn waited<S: Alter, K: WallClock, V: Server, L: Shelf>(
    desk: &Desk<'_, K, V, L>,
    conn: &mut Connection<S>,
    before: Place,
) -> Result<Option<Said>, TillFault>
    requires { conn.old.in_transaction ≡ false }
    ensures ended { conn.new.in_transaction ≡ false }
    ensures clean { HasCleanDisk (state S.Store conn.new) → HasCleanDisk (state S.Store conn.old) }
    ensures stays { HasCleanDisk (state S.Store conn.new) → Stays (state S.Store conn.old) (state S.Store conn.new) }
{
    let count = before.entries.saturating_sub(before.replies);
    if desk.is_json || count == 0 {
        return Ok(None);
    }
    let table = first_after(desk, conn, before.replies, count)?;
    Ok(Some(table))
}

/// Says the outcomes of the entries that had waited, if there were some.
pub(crate) fn say_waited(waited: &Option<Said>, said: &mut Said) -> Result<(), TillFault>
    ensures said { OnOk result (AddsWaited (string_bytes said.old.text) (string_bytes said.new.text)) }
    ensures status { said.new.status ≡ said.old.status }
{
    let Some(table) = waited else {
        return Ok(());
    };
    said.line("What had waited was sent first:")?;
    said.text.push_str(table.text.as_str())?;
    Ok(())
}
