//! Sending what waits, the oldest entry first.

ghost use Rattle.std.specs.Prelude.{◌≡◌, ◌≢◌, ◌≤◌, ◌+◌, false, IsTrue, IfOk, IfErr, OnOk, OnErr};
ghost use Rattle.sqlite.specs.Held.{state};
ghost use Rattle.sqlite.specs.State.{HasCleanDisk};
ghost use Rattle.till_client.specs.Replies.{seen_answer};
ghost use Rattle.till_work.specs.declared.fault.DeskFault.TheVariants.{Book};
ghost use Rattle.till_work.specs.Exchanged.{IsExchanged};
ghost use Rattle.till_work.specs.Desk.{AnswersOne, FailsToExchange, HasPlace, Sends, FailsToSend, Stays, IsBookKept, ReturnsLast};
ghost use Rattle.till_work.specs.Stops.{IsAny, IsSentAfter, Leaves};

use crate::delivering::deliver;
use crate::fault::DeskFault;
use crate::place::Place;
use crate::server::{Server, Watch};
use counter_routes::Routes;
use sqlite::{Alter, Connection};
use std::alloc::Global;
use std::time::{Clock, Duration};
use till_client::Answer;

/// How often an entry is sent before it is left to wait.
const ROUNDS: u64 = 3;

/// How many milliseconds pass after the first try. After each further one that many more pass.
const PAUSE: u64 = 200;

/// Sends the oldest entry without a reply over a new connection, and records the reply.
fn send_once<S: Alter, V: Server>(
    alloc: Global,
    routes: &Routes,
    server: &V,
    conn: &mut Connection<S>,
    place: &mut Place,
) -> Result<Answer, DeskFault>
    requires { conn.old.in_transaction ≡ false }
    ensures ended { conn.new.in_transaction ≡ false }
    ensures clean { HasCleanDisk (state S.Store conn.new) → HasCleanDisk (state S.Store conn.old) }
    ensures answered { HasCleanDisk (state S.Store conn.new)
        → IfOk result (λ answer. AnswersOne (IsExchanged (V.opens server.now) V.Reader.remaining V.Writer.contents)
        (seen_answer answer) place.old (state S.Store conn.old) place.new (state S.Store conn.new)) }
    ensures stays { HasCleanDisk (state S.Store conn.new) → IsBookKept result
        → OnErr result (Stays place.old (state S.Store conn.old) place.new (state S.Store conn.new)) }
    ensures why { HasCleanDisk (state S.Store conn.new)
        → IfErr result (FailsToExchange (V.refuses server.now) (V.opens server.now) V.Writer.contents place.old
        (state S.Store conn.old)) }
    ensures counted { OnOk result (place.new ≡ record place.old { replies = place.old.replies + 1 }) }
    ensures uncounted { OnErr result (place.new ≡ place.old) }
    ensures crash { HasCleanDisk (state S.Store conn.new) → Leaves (HasPlace place.old (state S.Store conn.old)) IsAny
        (IsSentAfter (IsExchanged (V.opens server.now) V.Reader.remaining V.Writer.contents)) (state S.Store conn.new) }
{
    let Ok((mut reader, mut writer)) = server.connect() else {
        return Err(DeskFault::Unopened);
    };
    let Some(number) = place.replies.checked_add(1) else {
        return Err(DeskFault::Full);
    };
    match deliver(alloc, routes, conn, number, &mut reader, &mut writer) {
        Ok(Some(answer)) => {
            place.replies = number;
            Ok(answer)
        }
        Ok(None) => Err(DeskFault::NoEntry),
        Err(fault) => Err(fault),
    }
}

/// Returns whether a further try may get a reply.
fn may_pass(fault: &DeskFault) -> bool
    ensures { IsTrue result → fault.now ≢ Book }
{
    match fault {
        DeskFault::Unopened | DeskFault::Unanswered(_) | DeskFault::NotNow => true,
        DeskFault::Book
        | DeskFault::Full
        | DeskFault::Memory
        | DeskFault::NoCommand
        | DeskFault::OtherKey
        | DeskFault::NotLater
        | DeskFault::OtherBook
        | DeskFault::NoEntry
        | DeskFault::NotKnown => false,
    }
}

/// Sends the oldest entry without a reply, up to three times, each over a new connection, with a pause between them,
/// and records the reply. After `Unopened`, `Unanswered`, `NotNow` and `NotKnown` it waits on. Fails with `NoEntry` if
/// none waits.
pub fn send_oldest<S: Alter, V: Server, K: Clock>(
    alloc: Global,
    routes: &Routes,
    clock: &K,
    server: &V,
    conn: &mut Connection<S>,
    place: &mut Place,
) -> Result<Answer, DeskFault>
    requires { conn.old.in_transaction ≡ false }
    ensures ended { conn.new.in_transaction ≡ false }
    ensures clean { HasCleanDisk (state S.Store conn.new) → HasCleanDisk (state S.Store conn.old) }
    ensures answered { HasCleanDisk (state S.Store conn.new)
        → IfOk result (λ answer. AnswersOne (IsExchanged (V.opens server.now) V.Reader.remaining V.Writer.contents)
        (seen_answer answer) place.old (state S.Store conn.old) place.new (state S.Store conn.new)) }
    ensures stays { HasCleanDisk (state S.Store conn.new) → IsBookKept result
        → OnErr result (Stays place.old (state S.Store conn.old) place.new (state S.Store conn.new)) }
    ensures why { HasCleanDisk (state S.Store conn.new)
        → IfErr result (FailsToExchange (V.refuses server.now) (V.opens server.now) V.Writer.contents place.old
        (state S.Store conn.old)) }
    ensures counted { OnOk result (place.new ≡ record place.old { replies = place.old.replies + 1 }) }
    ensures uncounted { OnErr result (place.new ≡ place.old) }
    ensures crash { HasCleanDisk (state S.Store conn.new) → Leaves (HasPlace place.old (state S.Store conn.old)) IsAny
        (IsSentAfter (IsExchanged (V.opens server.now) V.Reader.remaining V.Writer.contents)) (state S.Store conn.new) }
{
    let mut fault = DeskFault::Unopened;
    'rounds: for round in 0..ROUNDS {
        if round > 0 {
            clock.sleep(Duration::from_millis(PAUSE * round));
        }
        match send_once(alloc, routes, server, conn, place) {
            Ok(answer) => return Ok(answer),
            Err(it) => {
                if !may_pass(&it) {
                    return Err(it);
                }
                fault = it;
            }
        }
    }
    Err(fault)
}

/// Sends all that waits, oldest first, and records the replies. Returns the last of them, and none if nothing waited.
/// At the first entry that gets no reply it stops, and that one and all after it wait on. `watch` gets a report before
/// each.
pub fn send_waiting<S: Alter, V: Server, K: Clock, W: Watch>(
    alloc: Global,
    routes: &Routes,
    clock: &K,
    server: &V,
    watch: &mut W,
    conn: &mut Connection<S>,
    place: &mut Place,
) -> Result<Option<Answer>, DeskFault>
    requires { conn.old.in_transaction ≡ false }
    ensures ended { conn.new.in_transaction ≡ false }
    ensures clean { HasCleanDisk (state S.Store conn.new) → HasCleanDisk (state S.Store conn.old) }
    ensures sends { HasCleanDisk (state S.Store conn.new) → IsBookKept result
        → Sends (IsExchanged (V.opens server.now) V.Reader.remaining V.Writer.contents) place.old
        (state S.Store conn.old) place.new (state S.Store conn.new) }
    ensures told { HasCleanDisk (state S.Store conn.new)
        → IfOk result (λ last. ReturnsLast (IsExchanged (V.opens server.now) V.Reader.remaining V.Writer.contents) last
        place.old (state S.Store conn.old) place.new (state S.Store conn.new)) }
    ensures why { HasCleanDisk (state S.Store conn.new)
        → IfErr result (FailsToSend (IsExchanged (V.opens server.now) V.Reader.remaining V.Writer.contents)
        (V.refuses server.now) (V.opens server.now) V.Writer.contents place.old (state S.Store conn.old) place.new
        (state S.Store conn.new)) }
    ensures entries { place.new.entries ≡ place.old.entries }
    ensures all { OnOk result (place.old.replies ≤ place.old.entries → place.new.replies ≡ place.old.entries) }
    ensures crash { HasCleanDisk (state S.Store conn.new) → Leaves (HasPlace place.old (state S.Store conn.old)) IsAny
        (IsSentAfter (IsExchanged (V.opens server.now) V.Reader.remaining V.Writer.contents)) (state S.Store conn.new) }
{
    let first = place.replies;
    let end = place.entries;
    let mut last = None;
    'entries: for sent in first..end {
        watch.sends(sent - first, end - first);
        match send_oldest(alloc, routes, clock, server, conn, place) {
            Ok(answer) => last = Some(answer),
            Err(fault) => return Err(fault),
        }
    }
    Ok(last)
}
