//! One change of the journal and of the tables beside it, inside a transaction.

ghost use Rattle.std.specs.Prelude.{◌≡◌, Some};
ghost use Rattle.sql_rows.specs.Calls.{DoesInside};
ghost use Rattle.till_book.specs.Journal.{Finds, FindsEntry, PutsEntry, PutsReply, PutsRefused, PutsSettled, is_refused};

use crate::journal::{add_entry, add_reply, add_settled, drop_unsure, entry_at};
use crate::marks::{put_mark, reply_mark, settled_mark};
use crate::reading::reply_at;
use counter_routes::Routes;
use sql_rows::{Bytes, StoreFault};
use sqlite::{Alter, Transaction};
use std::alloc::Global;

/// Adds a request under the next number.
pub fn put_entry<S: Alter>(
    tx: &mut Transaction<'_, S>,
    number: u32,
    request: &[u8],
) -> Result<(), StoreFault>
    ensures { DoesInside S.Store tx.old.conn tx.new.conn result (λ _. PutsEntry number request.now) }
{
    add_entry(tx, number, request)
}

/// Returns the request of that number. Fails if there is none.
fn request_at<S: Alter>(tx: &mut Transaction<'_, S>, number: u32) -> Result<Bytes, StoreFault>
    ensures { DoesInside S.Store tx.old.conn tx.new.conn result (λ request. FindsEntry number (Some request)) }
{
    match entry_at(tx, number)? {
        Some(request) => Ok(request),
        None => Err(StoreFault::Failed),
    }
}

/// Adds the reply to the oldest request that has none, and its row in the tables beside the journal. Fails if no
/// request has that number.
pub fn put_reply<S: Alter>(
    alloc: Global,
    routes: &Routes,
    tx: &mut Transaction<'_, S>,
    number: u32,
    status: u32,
    body: &[u8],
) -> Result<(), StoreFault>
    ensures { DoesInside S.Store tx.old.conn tx.new.conn result
        (λ _. PutsReply number (record { status = status; body = body.now })) }
{
    let request = request_at(tx, number)?;
    let mark = reply_mark(alloc, routes, request.as_slice(), status, body)?;
    add_reply(tx, number, status, body)?;
    put_mark(tx, number, mark)
}

/// Returns whether the entry of that number has a reply that isn't 200.
fn is_refused_at<S: Alter>(tx: &mut Transaction<'_, S>, number: u32) -> Result<bool, StoreFault>
    ensures { DoesInside S.Store tx.old.conn tx.new.conn result
        (λ is. Finds (λ journal. is ≡ is_refused journal.replies number)) }
{
    match reply_at(tx, number)? {
        Some(reply) => Ok(reply.status != 200),
        None => Ok(false),
    }
}

/// Adds the reply that settles a refused entry, which isn't settled yet, and changes the tables beside the journal.
fn put_refused<S: Alter>(
    alloc: Global,
    routes: &Routes,
    tx: &mut Transaction<'_, S>,
    number: u32,
    status: u32,
    body: &[u8],
) -> Result<(), StoreFault>
    ensures { DoesInside S.Store tx.old.conn tx.new.conn result
        (λ _. PutsRefused number (record { status = status; body = body.now })) }
{
    let request = request_at(tx, number)?;
    let mark = settled_mark(alloc, routes, request.as_slice(), status, body)?;
    add_settled(tx, number, status, body)?;
    drop_unsure(tx, number)?;
    put_mark(tx, number, mark)
}

/// Adds the reply that settles the entry of that number, which isn't settled yet, and changes the tables beside the
/// journal. Fails if the entry has no reply, or was accepted.
pub fn put_settled<S: Alter>(
    alloc: Global,
    routes: &Routes,
    tx: &mut Transaction<'_, S>,
    number: u32,
    status: u32,
    body: &[u8],
) -> Result<(), StoreFault>
    ensures { DoesInside S.Store tx.old.conn tx.new.conn result
        (λ _. PutsSettled number (record { status = status; body = body.now })) }
{
    match is_refused_at(tx, number)? {
        true => put_refused(alloc, routes, tx, number, status, body),
        false => Err(StoreFault::Failed),
    }
}
