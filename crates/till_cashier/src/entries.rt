//! The entries of a book after a number.

ghost use Rattle.std.specs.Prelude.{◌≡◌, ◌+◌, ℕ, List, true, false, Some, IfErr, IfOk, IfSome, length, map, option_map, slice_get};
ghost use Rattle.sqlite.specs.Held.{state};
ghost use Rattle.sqlite.specs.State.{HasCleanDisk};
ghost use Rattle.shop_types.specs.Seen.{seen_command};
ghost use Rattle.shop_model.specs.Refusals.{Decision, MomentBack};
ghost use Rattle.shop_model.specs.Values.{Command as Said};
ghost use Rattle.till_model.specs.Settled.{accepted_of, or_reply};
ghost use Rattle.till_book.specs.Ends.{IsReadAfter};
ghost use Rattle.till_book.specs.Marks.{is_reply_to};
ghost use Rattle.till_book.specs.Saying.{Says};
ghost use Rattle.till_book.specs.Seen.{seen_reply, seen_settlement};
ghost use Rattle.till_book.specs.Steps.{Stays, FindsAtRest};
ghost use Rattle.till_cashier.specs.Again.{IsBackAt, SaysAt};
ghost use Rattle.till_cashier.specs.Giving.{IsBack};

use crate::fault::TillFault;
use counter_routes::Routes;
use shop_types::{Command, Refusal, Reply};
use sqlite::{Alter, Connection};
use std::alloc::Global;
use till_book::{BookReply, BookRows, Settlement, read_after};
use till_client::{NotSealed, command_of};

/// The entries after a number, with their replies, as they were read. The first of them is at 0.
#[derive(Drop)]
pub(crate) struct EntriesAfter {
    number: u32,
    rows: BookRows,
}

/// Tests whether the reply is that another moment was later, byte for byte.
fn is_moment_back(reply: &BookReply) -> bool
    ensures { result ≡ is_reply_to (Decision MomentBack) (seen_reply reply.now) }
{
    let back = Reply::refused(Refusal::MomentBack);
    reply.status == back.status && reply.body.as_slice() == back.body_bytes()
}

/// Tests whether the reply is that another moment was later.
fn is_back(reply: &BookReply) -> bool
    ensures back { result ≡ true → IsBack (seen_reply reply.now) }
    ensures other { result ≡ false → ¬ IsBack (seen_reply reply.now) }
{
    is_moment_back(reply)
}

/// Returns the first settlement of that number that accepted its entry.
fn accepted_among(settled: &[Settlement], number: u128) -> Option<&BookReply>
    ensures { option_map (λ it. seen_reply it.now) result ≡ accepted_of number (map seen_settlement settled.now) }
{
    for it in settled {
        if it.number as u128 == number && it.reply.status == 200 {
            return Some(&it.reply);
        }
    }
    None
}

impl EntriesAfter {
    /// Reads the entries after that number. The book stays.
    pub(crate) fn read<S: Alter>(
        alloc: Global,
        conn: &mut Connection<S>,
        number: u32,
    ) -> Result<EntriesAfter, TillFault>
        requires { conn.old.in_transaction ≡ false }
        ensures ended { conn.new.in_transaction ≡ false }
        ensures clean { HasCleanDisk (state S.Store conn.new) → HasCleanDisk (state S.Store conn.old) }
        ensures stays { HasCleanDisk (state S.Store conn.new)
            → Stays (state S.Store conn.old) (state S.Store conn.new) }
        ensures found { HasCleanDisk (state S.Store conn.new)
            → IfOk result (λ it. FindsAtRest (IsReadAfter number it.rows) (state S.Store conn.old) (state S.Store conn.new)) }
        ensures first { IfOk result (λ it. it.number ≡ number) }
    {
        match read_after(alloc, conn, number) {
            Ok(rows) => Ok(EntriesAfter { number, rows }),
            Err(_) => Err(TillFault::Book),
        }
    }

    /// Returns how many they are.
    pub(crate) fn len(&self) -> usize
        ensures { result ≡ length self.now.rows.entries }
    {
        self.rows.entries.as_slice().len()
    }

    /// Returns the number in the book of the entry at that place.
    pub(crate) fn number_at(&self, at: usize) -> u128
        ensures { result ≡ self.now.number + at + 1 }
    {
        self.number as u128 + at as u128 + 1
    }

    /// Returns the request of the entry at that place.
    pub(crate) fn request_at(&self, at: usize) -> Option<&[u8]>
        ensures { option_map (λ bytes. bytes.now) result ≡ slice_get self.now.rows.entries at }
    {
        Some(self.rows.entries.as_slice().get(at)?.request.as_slice())
    }

    /// Returns the command of the entry at that place.
    pub(crate) fn command_at(
        &self,
        alloc: Global,
        routes: &Routes,
        at: usize,
    ) -> Result<Command, TillFault>
        ensures says { IfOk result (λ command. SaysAt self.now.rows.entries at (seen_command command)) }
        ensures other { IfErr result (λ fault. fault ≡ TillFault.OtherBook → (command : Said)
            → ¬ SaysAt self.now.rows.entries at command) }
    {
        let Some(request) = self.request_at(at) else {
            return Err(TillFault::OtherBook);
        };
        match command_of(alloc, routes, request) {
            Ok(command) => Ok(command),
            Err(NotSealed::Memory) => Err(TillFault::Memory),
            Err(NotSealed::Other) => Err(TillFault::OtherBook),
        }
    }

    /// Tests whether the entry at that place was refused at first because the branch had a later moment.
    pub(crate) fn is_back_at(&self, at: usize) -> bool
        ensures back { result ≡ true → IsBackAt self.now.rows.replies at }
        ensures other { result ≡ false → ¬ IsBackAt self.now.rows.replies at }
    {
        match self.rows.replies.as_slice().get(at) {
            Some(reply) => is_back(reply),
            None => false,
        }
    }

    /// Returns the last reply to the entry at that place: if it was sent once more and had acted, the reply to that,
    /// and else its first.
    pub(crate) fn reply_at(&self, at: usize) -> Option<&BookReply>
        ensures { option_map (λ it. seen_reply it.now) result
            ≡ or_reply (accepted_of (self.now.number + at + 1) self.now.rows.settled)
            (slice_get self.now.rows.replies at) }
    {
        match accepted_among(self.rows.settled.as_slice(), self.number_at(at)) {
            Some(reply) => Some(reply),
            None => self.rows.replies.as_slice().get(at),
        }
    }
}
