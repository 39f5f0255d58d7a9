//! One change of the book, in a transaction of its own.

ghost use Rattle.std.specs.Prelude.{◌≡◌, false, map, option_map, take, OnOk, IfOk};
ghost use Rattle.sqlite.specs.Held.{state};
ghost use Rattle.sqlite.specs.State.{HasCleanDisk, Survives};
ghost use Rattle.till_book.specs.Steps.{IsEntered, LeavesEntered, IsRecorded, LeavesRecorded, IsNoted, LeavesNoted, FindsNumbered, FindsWaiting, FindsSettled, ReadsBook, Stays, FindsAtRest, FindsHeld};
ghost use Rattle.till_book.specs.Register.{IsRenter};
ghost use Rattle.till_book.specs.Ends.{IsEndOf, IsReadAfter, unsure_before};
ghost use Rattle.till_book.specs.Ends as ends;

use crate::changes::{put_entry, put_reply, put_settled};
use crate::ends::{BookEnd, EntryNumber, end_of, last_accepted_entry, unsure_entries};
use crate::journal::entry_at;
use crate::lists::BookRows;
use crate::reading::{all_rows, rows_after, settled_at};
use crate::rents::{HeldRental, held_at, renter_at};
use crate::rows::BookReply;
use counter_routes::Routes;
use shop_types::{CopyNo, CustomerNo, RentalNo};
use sql_rows::{Bytes, StoreFault, fault_of};
use sqlite::{Alter, Connection};
use std::alloc::Global;

/// Enters a request under the next number, and commits it. After a fault the book may have the request, or not. The
/// caller then opens the book anew.
pub fn enter<S: Alter>(
    conn: &mut Connection<S>,
    number: u32,
    request: &[u8],
) -> Result<(), StoreFault>
    requires { conn.old.in_transaction ≡ false }
    ensures ended { conn.new.in_transaction ≡ false }
    ensures made { HasCleanDisk (state S.Store conn.new)
        → OnOk result (IsEntered number request.now (state S.Store conn.old) (state S.Store conn.new)) }
    ensures crash { Survives (state S.Store conn.old) (state S.Store conn.new)
        (LeavesEntered number request.now (state S.Store conn.old)) }
{
    let mut tx = conn.transaction();
    match put_entry(&mut tx, number, request) {
        Ok(()) => match tx.commit() {
            Ok(()) => Ok(()),
            Err(error) => Err(fault_of(error)),
        },
        Err(fault) => {
            tx.rollback();
            Err(fault)
        }
    }
}

/// Records the reply to the oldest request that has none, with the reply's row in the tables beside the journal, and
/// commits both. The number is that request's. After a fault the book may have the reply, or not. The caller then
/// opens the book anew.
pub fn record<S: Alter>(
    alloc: Global,
    routes: &Routes,
    conn: &mut Connection<S>,
    number: u32,
    status: u32,
    body: &[u8],
) -> Result<(), StoreFault>
    requires { conn.old.in_transaction ≡ false }
    ensures ended { conn.new.in_transaction ≡ false }
    ensures made { HasCleanDisk (state S.Store conn.new)
        → OnOk result (IsRecorded number status body.now (state S.Store conn.old) (state S.Store conn.new)) }
    ensures crash { Survives (state S.Store conn.old) (state S.Store conn.new)
        (LeavesRecorded number status body.now (state S.Store conn.old)) }
{
    let mut tx = conn.transaction();
    match put_reply(alloc, routes, &mut tx, number, status, body) {
        Ok(()) => match tx.commit() {
            Ok(()) => Ok(()),
            Err(error) => Err(fault_of(error)),
        },
        Err(fault) => {
            tx.rollback();
            Err(fault)
        }
    }
}

/// Records the reply that settles a refused entry which was sent once more, with the changes of the tables beside the
/// journal, and commits all. Fails if the entry has no reply, was accepted, or is settled. After a fault the book may
/// have the settlement, or not. The caller then opens the book anew.
pub fn note_settled<S: Alter>(
    alloc: Global,
    routes: &Routes,
    conn: &mut Connection<S>,
    number: u32,
    status: u32,
    body: &[u8],
) -> Result<(), StoreFault>
    requires { conn.old.in_transaction ≡ false }
    ensures ended { conn.new.in_transaction ≡ false }
    ensures made { HasCleanDisk (state S.Store conn.new)
        → OnOk result (IsNoted number status body.now (state S.Store conn.old) (state S.Store conn.new)) }
    ensures crash { Survives (state S.Store conn.old) (state S.Store conn.new)
        (LeavesNoted number status body.now (state S.Store conn.old)) }
{
    let mut tx = conn.transaction();
    match put_settled(alloc, routes, &mut tx, number, status, body) {
        Ok(()) => match tx.commit() {
            Ok(()) => Ok(()),
            Err(error) => Err(fault_of(error)),
        },
        Err(fault) => {
            tx.rollback();
            Err(fault)
        }
    }
}

/// Returns the request of that number, if there is one. Nothing changes.
pub fn request_of<S: Alter>(
    conn: &mut Connection<S>,
    number: u32,
) -> Result<Option<Bytes>, StoreFault>
    requires { conn.old.in_transaction ≡ false }
    ensures ended { conn.new.in_transaction ≡ false }
    ensures found { HasCleanDisk (state S.Store conn.new)
        → IfOk result (λ it. FindsNumbered number it (state S.Store conn.old) (state S.Store conn.new)) }
    ensures crash { Survives (state S.Store conn.old) (state S.Store conn.new) (λ _. ⊥) }
{
    let mut tx = conn.transaction();
    let found = entry_at(&mut tx, number);
    tx.rollback();
    found
}

/// Returns the oldest request that has no reply, if one waits; `next` is the number of the next reply. Nothing changes.
pub fn oldest<S: Alter>(conn: &mut Connection<S>, next: u32) -> Result<Option<Bytes>, StoreFault>
    requires { conn.old.in_transaction ≡ false }
    ensures ended { conn.new.in_transaction ≡ false }
    ensures found { HasCleanDisk (state S.Store conn.new)
        → IfOk result (λ it. FindsWaiting next it (state S.Store conn.old) (state S.Store conn.new)) }
    ensures crash { Survives (state S.Store conn.old) (state S.Store conn.new) (λ _. ⊥) }
{
    request_of(conn, next)
}

/// Returns the reply that settled the entry of that number, if one is recorded. Nothing changes.
pub fn settlement_of<S: Alter>(
    conn: &mut Connection<S>,
    number: u32,
) -> Result<Option<BookReply>, StoreFault>
    requires { conn.old.in_transaction ≡ false }
    ensures ended { conn.new.in_transaction ≡ false }
    ensures found { HasCleanDisk (state S.Store conn.new)
        → IfOk result (λ it. FindsSettled number it (state S.Store conn.old) (state S.Store conn.new)) }
    ensures stays { HasCleanDisk (state S.Store conn.new) → Stays (state S.Store conn.old) (state S.Store conn.new) }
    ensures crash { Survives (state S.Store conn.old) (state S.Store conn.new) (λ _. ⊥) }
{
    let mut tx = conn.transaction();
    let found = settled_at(&mut tx, number);
    tx.rollback();
    found
}

/// Reads the whole book, by one statement a table. Nothing changes, even if this fails.
pub fn read_book<S: Alter>(alloc: Global, conn: &mut Connection<S>) -> Result<BookRows, StoreFault>
    requires { conn.old.in_transaction ≡ false }
    ensures ended { conn.new.in_transaction ≡ false }
    ensures read { HasCleanDisk (state S.Store conn.new)
        → IfOk result (λ rows. ReadsBook rows (state S.Store conn.old) (state S.Store conn.new)) }
    ensures stays { HasCleanDisk (state S.Store conn.new) → Stays (state S.Store conn.old) (state S.Store conn.new) }
    ensures crash { Survives (state S.Store conn.old) (state S.Store conn.new) (λ _. ⊥) }
{
    let mut tx = conn.transaction();
    let rows = all_rows(alloc, &mut tx);
    tx.rollback();
    rows
}

/// Reads how far the book goes. Nothing changes, even if this fails.
pub fn read_end<S: Alter>(conn: &mut Connection<S>) -> Result<BookEnd, StoreFault>
    requires { conn.old.in_transaction ≡ false }
    ensures ended { conn.new.in_transaction ≡ false }
    ensures found { HasCleanDisk (state S.Store conn.new)
        → IfOk result (λ it. FindsAtRest (IsEndOf it) (state S.Store conn.old) (state S.Store conn.new)) }
    ensures stays { HasCleanDisk (state S.Store conn.new) → Stays (state S.Store conn.old) (state S.Store conn.new) }
    ensures crash { Survives (state S.Store conn.old) (state S.Store conn.new) (λ _. ⊥) }
{
    let mut tx = conn.transaction();
    let found = end_of(&mut tx);
    tx.rollback();
    found
}

/// Reads what the book has after that number. Nothing changes, even if this fails.
pub fn read_after<S: Alter>(
    alloc: Global,
    conn: &mut Connection<S>,
    number: u32,
) -> Result<BookRows, StoreFault>
    requires { conn.old.in_transaction ≡ false }
    ensures ended { conn.new.in_transaction ≡ false }
    ensures found { HasCleanDisk (state S.Store conn.new)
        → IfOk result (λ it. FindsAtRest (IsReadAfter number it) (state S.Store conn.old) (state S.Store conn.new)) }
    ensures stays { HasCleanDisk (state S.Store conn.new) → Stays (state S.Store conn.old) (state S.Store conn.new) }
    ensures crash { Survives (state S.Store conn.old) (state S.Store conn.new) (λ _. ⊥) }
{
    let mut tx = conn.transaction();
    let found = rows_after(alloc, &mut tx, number);
    tx.rollback();
    found
}

/// Returns the rental of the copy's last accepted rent, and its customer, unless a later entry returned that rental.
/// Nothing changes, even if this fails.
pub fn held_of<S: Alter>(
    conn: &mut Connection<S>,
    copy: CopyNo,
) -> Result<Option<HeldRental>, StoreFault>
    requires { conn.old.in_transaction ≡ false }
    ensures ended { conn.new.in_transaction ≡ false }
    ensures found { HasCleanDisk (state S.Store conn.new)
        → IfOk result (λ it. FindsHeld copy it (state S.Store conn.old) (state S.Store conn.new)) }
    ensures stays { HasCleanDisk (state S.Store conn.new) → Stays (state S.Store conn.old) (state S.Store conn.new) }
    ensures crash { Survives (state S.Store conn.old) (state S.Store conn.new) (λ _. ⊥) }
{
    let mut tx = conn.transaction();
    let found = held_at(&mut tx, copy);
    tx.rollback();
    found
}

/// Returns the customer of the last accepted rent whose reply names that rental, if there is one. Nothing changes, even
/// if this fails.
pub fn renter_of<S: Alter>(
    conn: &mut Connection<S>,
    rental: RentalNo,
) -> Result<Option<CustomerNo>, StoreFault>
    requires { conn.old.in_transaction ≡ false }
    ensures ended { conn.new.in_transaction ≡ false }
    ensures found { HasCleanDisk (state S.Store conn.new)
        → IfOk result (λ it. FindsAtRest (IsRenter rental it) (state S.Store conn.old) (state S.Store conn.new)) }
    ensures stays { HasCleanDisk (state S.Store conn.new) → Stays (state S.Store conn.old) (state S.Store conn.new) }
    ensures crash { Survives (state S.Store conn.old) (state S.Store conn.new) (λ _. ⊥) }
{
    let mut tx = conn.transaction();
    let found = renter_at(&mut tx, rental);
    tx.rollback();
    found
}

/// Returns the number of the last entry that its reply accepted, if there is one. Nothing changes, even if this fails.
pub fn last_accepted<S: Alter>(conn: &mut Connection<S>) -> Result<Option<EntryNumber>, StoreFault>
    requires { conn.old.in_transaction ≡ false }
    ensures ended { conn.new.in_transaction ≡ false }
    ensures found { HasCleanDisk (state S.Store conn.new)
        → IfOk result (λ it. FindsAtRest (λ journal. option_map (λ row. row.number) it ≡ ends.last_accepted journal) (state S.Store conn.old) (state S.Store conn.new)) }
    ensures stays { HasCleanDisk (state S.Store conn.new) → Stays (state S.Store conn.old) (state S.Store conn.new) }
    ensures crash { Survives (state S.Store conn.old) (state S.Store conn.new) (λ _. ⊥) }
{
    let mut tx = conn.transaction();
    let found = last_accepted_entry(&mut tx);
    tx.rollback();
    found
}

/// Returns the first ten entries before that number that are unsure: each was refused, may act for all that is known,
/// and may be settled by sending it once more. Nothing changes, even if this fails.
pub fn unsure_of<S: Alter>(
    alloc: Global,
    conn: &mut Connection<S>,
    number: u32,
) -> Result<Vec<EntryNumber>, StoreFault>
    requires { conn.old.in_transaction ≡ false }
    ensures ended { conn.new.in_transaction ≡ false }
    ensures found { HasCleanDisk (state S.Store conn.new)
        → IfOk result (λ it. FindsAtRest (λ journal. map (λ row. row.number) it.items ≡ take 10 (unsure_before number journal)) (state S.Store conn.old) (state S.Store conn.new)) }
    ensures stays { HasCleanDisk (state S.Store conn.new) → Stays (state S.Store conn.old) (state S.Store conn.new) }
    ensures crash { Survives (state S.Store conn.old) (state S.Store conn.new) (λ _. ⊥) }
{
    let mut tx = conn.transaction();
    let found = unsure_entries(alloc, &mut tx, number);
    tx.rollback();
    found
}
