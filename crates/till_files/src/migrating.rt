//! How a book that was made before it had tables beside the journal gets them, all in one transaction.

ghost use Rattle.std.specs.Prelude.{◌≡◌, ◌+◌, ◌<◌, ◌-◌, ◌^◌, false, map, OnOk, IfOk};
ghost use Rattle.sqlite.specs.Held.{state};
ghost use Rattle.sqlite.specs.State.{HasCleanDisk, Survives};
ghost use Rattle.sql_rows.specs.Calls.{DoesInside, DoesWithin};
ghost use Rattle.till_book.specs.Seen.{seen_reply, seen_settlement};
ghost use Rattle.till_files.specs.Migrations.{AddsTables, Fills, IsFilled, LeavesFilled};
ghost use Rattle.till_files.specs.Playing.{MarksReply, MarksReplies, MarksSettlement, MarksSettlements};

use counter_routes::Routes;
use sql_rows::{StoreFault, execute, fault_of};
use sqlite::{Alter, Connection, Transaction};
use std::alloc::Global;
use till_book::{
    BookEntry, BookReply, Settlement, all_rows, drop_unsure, put_mark, reply_mark, settled_mark,
};

const CREATE_UNSURE: &str =
    "CREATE TABLE unsure (number INT NOT NULL, PRIMARY KEY (number)) STRICT";

const CREATE_RENTED: &str =
    "CREATE TABLE rented (copy INTEGER NOT NULL, number INTEGER NOT NULL, rental INTEGER NOT NULL, customer INTEGER NOT NULL, PRIMARY KEY (copy, number)) STRICT";

const CREATE_RETURNED: &str =
    "CREATE TABLE returned (rental INTEGER NOT NULL, number INTEGER NOT NULL, PRIMARY KEY (rental, number)) STRICT";

const CREATE_RENTED_AS: &str = "CREATE INDEX rented_as ON rented (rental, number)";

/// Makes the tables beside the journal, with no rows.
fn add_tables<S: Alter>(tx: &mut Transaction<'_, S>) -> Result<(), StoreFault>
    ensures { DoesInside S.Store tx.old.conn tx.new.conn result (λ _. AddsTables) }
{
    execute(tx, CREATE_UNSURE, &[])?;
    execute(tx, CREATE_RENTED, &[])?;
    execute(tx, CREATE_RETURNED, &[])?;
    execute(tx, CREATE_RENTED_AS, &[])
}

/// Returns the number of the entry at that place. Fails if it is too large.
fn number_at(at: usize) -> Result<u32, StoreFault>
    ensures { IfOk result (λ n. n ≡ at + 1) }
{
    match u32::try_from(at) {
        Ok(place) => match place.checked_add(1) {
            Some(number) => Ok(number),
            None => Err(StoreFault::Failed),
        },
        Err(_) => Err(StoreFault::Failed),
    }
}

/// Adds the row of the reply to the entry at that place. Fails if there is no such entry.
fn mark_reply<S: Alter>(
    alloc: Global,
    routes: &Routes,
    tx: &mut Transaction<'_, S>,
    entries: &[BookEntry],
    at: usize,
    reply: &BookReply,
) -> Result<(), StoreFault>
    ensures { DoesWithin S.Store tx.old.conn tx.new.conn result
        (λ _. MarksReply (map (λ row. row.request) entries.now) at (seen_reply reply.now)) }
{
    if at >= entries.len() {
        return Err(StoreFault::Failed);
    }
    let entry = &entries[at];
    let number = number_at(at)?;
    let status = u32::from(reply.status);
    let mark = reply_mark(
        alloc,
        routes,
        entry.request.as_slice(),
        status,
        reply.body.as_slice(),
    )?;
    put_mark(tx, number, mark)
}

/// Adds the rows of all replies. Fails if a reply has no entry.
fn mark_replies<S: Alter>(
    alloc: Global,
    routes: &Routes,
    tx: &mut Transaction<'_, S>,
    entries: &[BookEntry],
    replies: &[BookReply],
) -> Result<(), StoreFault>
    ensures { DoesWithin S.Store tx.old.conn tx.new.conn result
        (λ _. MarksReplies (map (λ row. row.request) entries.now) (map seen_reply replies.now)) }
{
    let mut at = 0;
    for reply in replies {
        mark_reply(alloc, routes, tx, entries, at, reply)?;
        at += 1;
    }
    Ok(())
}

/// Adds the row of a settlement, and takes its entry from the unsure ones. Fails if the entry has no reply, or was
/// accepted.
fn mark_settlement<S: Alter>(
    alloc: Global,
    routes: &Routes,
    tx: &mut Transaction<'_, S>,
    entries: &[BookEntry],
    replies: &[BookReply],
    it: &Settlement,
) -> Result<(), StoreFault>
    ensures { DoesWithin S.Store tx.old.conn tx.new.conn result
        (λ _. MarksSettlement (map (λ row. row.request) entries.now) (map seen_reply replies.now)
        (seen_settlement it.now)) }
{
    if it.number == 0 {
        return Err(StoreFault::Failed);
    }
    let at = (it.number - 1) as usize;
    if at >= replies.len() || at >= entries.len() {
        return Err(StoreFault::Failed);
    }
    let reply = &replies[at];
    let entry = &entries[at];
    if reply.status == 200 {
        return Err(StoreFault::Failed);
    }
    let status = u32::from(it.reply.status);
    let mark = settled_mark(
        alloc,
        routes,
        entry.request.as_slice(),
        status,
        it.reply.body.as_slice(),
    )?;
    drop_unsure(tx, it.number)?;
    put_mark(tx, it.number, mark)
}

/// Adds the rows of all settlements. Fails if one is of an entry that has no reply, or was accepted.
fn mark_settlements<S: Alter>(
    alloc: Global,
    routes: &Routes,
    tx: &mut Transaction<'_, S>,
    entries: &[BookEntry],
    replies: &[BookReply],
    settled: &[Settlement],
) -> Result<(), StoreFault>
    ensures { DoesWithin S.Store tx.old.conn tx.new.conn result
        (λ _. MarksSettlements (map (λ row. row.request) entries.now) (map seen_reply replies.now)
        (map seen_settlement settled.now)) }
{
    for row in settled {
        mark_settlement(alloc, routes, tx, entries, replies, row)?;
    }
    Ok(())
}

/// Makes the tables beside the journal, with their rows. Fails if a reply has no entry, or an accepted entry is
/// settled.
fn fill_tables<S: Alter>(
    alloc: Global,
    routes: &Routes,
    tx: &mut Transaction<'_, S>,
) -> Result<(), StoreFault>
    ensures { DoesWithin S.Store tx.old.conn tx.new.conn result (λ _. Fills) }
{
    add_tables(tx)?;
    let rows = all_rows(alloc, tx)?;
    let entries = rows.entries.as_slice();
    let replies = rows.replies.as_slice();
    mark_replies(alloc, routes, tx, entries, replies)?;
    mark_settlements(alloc, routes, tx, entries, replies, rows.settled.as_slice())
}

/// Makes the tables beside the journal, with their rows, and commits all of it or nothing.
pub fn fill<S: Alter>(
    alloc: Global,
    routes: &Routes,
    conn: &mut Connection<S>,
) -> Result<(), StoreFault>
    requires { conn.old.in_transaction ≡ false }
    ensures ended { conn.new.in_transaction ≡ false }
    ensures filled { HasCleanDisk (state S.Store conn.new)
        → OnOk result (IsFilled (state S.Store conn.old) (state S.Store conn.new)) }
    ensures crash { Survives (state S.Store conn.old) (state S.Store conn.new)
        (LeavesFilled (state S.Store conn.old)) }
{
    let mut tx = conn.transaction();
    fill_tables(alloc, routes, &mut tx)?;
    match tx.commit() {
        Ok(()) => Ok(()),
        Err(error) => Err(fault_of(error)),
    }
}
