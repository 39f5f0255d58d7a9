//! What a reply means to the tables beside the journal.

ghost use Rattle.std.specs.Prelude.{◌≡◌, false, true, Some, IfOk};
ghost use Rattle.std.specs.List.{list_any};
ghost use Rattle.shop_types.specs.Replies.{has_fixed_body};
ghost use Rattle.shop_types.specs.Seen.{seen_act, seen_refusal};
ghost use Rattle.sql_rows.specs.Calls.{DoesWithin};
ghost use Rattle.till_book.specs.Marks.{is_reply_to, final_problems, is_unsure};
ghost use Rattle.till_book.specs.Statements.{Marks};
ghost use Rattle.till_book.specs.Marking.{IsMarkOf, IsReplyMark, AreMarked};

use crate::journal::{add_rented, add_returned, add_unsure};
use counter_routes::Routes;
use shop_types::{Act, CopyNo, CustomerNo, Refusal, RentalNo, Reply};
use sql_rows::StoreFault;
use sqlite::{Alter, Transaction};
use std::alloc::Global;
use till_client::{NotSealed, command_of, rental_in_reply};

/// What a reply adds to the tables beside the journal.
#[derive(Clone, Copy)]
pub enum EntryMark {
    /// An accepted rent of the copy, with the rental that its reply names.
    Rent {
        copy: CopyNo,
        rental: RentalNo,
        customer: CustomerNo,
    },
    /// An accepted return of the rental.
    Return(RentalNo),
    /// A refused entry that may have acted, or may act when it arrives late.
    Unsure,
    Nothing,
}

/// Returns whether a reply is that of the refusal, byte for byte.
fn is_reply_to(refusal: Refusal, status: u32, body: &[u8]) -> bool
    requires { has_fixed_body refusal ≡ true }
    ensures { result ≡ is_reply_to (seen_refusal refusal) (record { status = status; body = body.now }) }
{
    let reply = Reply::refused(refusal);
    status == u32::from(reply.status) && body == reply.body_bytes()
}

/// Returns whether a reply is a refusal that an entry gets each time it is sent, or after which it never acts.
fn is_final(status: u32, body: &[u8]) -> bool
    ensures { result ≡ list_any (λ problem. is_reply_to problem (record { status = status; body = body.now })) final_problems }
{
    is_reply_to(Refusal::BadHead, status, body)
        || is_reply_to(Refusal::TooLong, status, body)
        || is_reply_to(Refusal::NoRoute, status, body)
        || is_reply_to(Refusal::BadBody, status, body)
        || is_reply_to(Refusal::KeyUsed, status, body)
        || is_reply_to(Refusal::Full, status, body)
        || is_reply_to(Refusal::MomentBack, status, body)
}

/// Returns whether a reply refuses its entry, and sending the entry once more may settle it.
fn is_unsure(status: u32, body: &[u8]) -> bool
    ensures { result ≡ is_unsure (record { status = status; body = body.now }) }
{
    status != 200 && !is_final(status, body)
}

/// Returns what an accepted command adds.
fn accepted_mark(alloc: Global, act: &Act, body: &[u8]) -> Result<EntryMark, StoreFault>
    ensures { IfOk result (AreMarked (seen_act act.now) (record { status = 200; body = body.now })) }
{
    match act {
        Act::Rent { customer, copy } => match rental_in_reply(alloc, 200, body)? {
            Some(rental) => Ok(EntryMark::Rent {
                copy: *copy,
                rental,
                customer: *customer,
            }),
            None => Ok(EntryMark::Nothing),
        },
        Act::TakeBack(rental) => Ok(EntryMark::Return(*rental)),
        _ => Ok(EntryMark::Nothing),
    }
}

/// Returns what a reply that accepts an entry adds. The server's own readers say which command the entry is. If it is
/// none, or the reply is a refusal, nothing is added.
pub fn settled_mark(
    alloc: Global,
    routes: &Routes,
    request: &[u8],
    status: u32,
    body: &[u8],
) -> Result<EntryMark, StoreFault>
    ensures { IfOk result (IsMarkOf request.now (record { status = status; body = body.now }) false) }
{
    if status != 200 {
        return Ok(EntryMark::Nothing);
    }
    match command_of(alloc, routes, request) {
        Ok(command) => accepted_mark(alloc, &command.act, body),
        Err(NotSealed::Other) => Ok(EntryMark::Nothing),
        Err(NotSealed::Memory) => Err(StoreFault::Memory),
    }
}

/// Returns what a reply adds.
pub fn reply_mark(
    alloc: Global,
    routes: &Routes,
    request: &[u8],
    status: u32,
    body: &[u8],
) -> Result<EntryMark, StoreFault>
    ensures { IfOk result (IsReplyMark request.now (record { status = status; body = body.now })) }
{
    if is_unsure(status, body) {
        Ok(EntryMark::Unsure)
    } else {
        settled_mark(alloc, routes, request, status, body)
    }
}

/// Adds the row of a mark, if it has one.
pub fn put_mark<S: Alter>(
    tx: &mut Transaction<'_, S>,
    number: u32,
    mark: EntryMark,
) -> Result<(), StoreFault>
    ensures { DoesWithin S.Store tx.old.conn tx.new.conn result (λ _. Marks number mark) }
{
    match mark {
        EntryMark::Rent {
            copy,
            rental,
            customer,
        } => add_rented(tx, number, copy, rental, customer),
        EntryMark::Return(rental) => add_returned(tx, number, rental),
        EntryMark::Unsure => add_unsure(tx, number),
        EntryMark::Nothing => Ok(()),
    }
}
