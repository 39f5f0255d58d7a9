//! Keys of head office's words. A refused word leaves its key to the next one. The server does at most one word under a
//! key, so a refused word is never done once a later one was.

ghost use Rattle.std.specs.Prelude.{◌≡◌, ◌+◌, false, IfOk, map};
ghost use Rattle.sqlite.specs.Held.{state};
ghost use Rattle.sqlite.specs.State.{HasCleanDisk};
ghost use Rattle.till_client.specs.Replies.{seen_answer};
ghost use Rattle.till_book.specs.Seen.{seen_reply};
ghost use Rattle.till_book.specs.Steps.{Stays, FindsAtRest};
ghost use Rattle.shop_model.specs.Refusals.{Decision, KeyUsed};
ghost use Rattle.till_book.specs.Marks.{is_reply_to};
ghost use Rattle.till_cashier.specs.Office.{HasOpenKey, key_after, last_number, shows_used};

use crate::fault::TillFault;
use shop_types::{Refusal, Reply};
use sqlite::{Alter, Connection};
use std::alloc::{AllocError, Global};
use till_book::{BookReply, BookRows, EntryNumber, last_accepted, read_after};
use till_client::Answer;
use till_requests::TillMark;
use till_work::key_bytes;

/// Tests whether the reply is that another command has the key.
fn is_used(status: u16, body: &[u8]) -> bool
    ensures { result ≡ is_reply_to (Decision KeyUsed) (record { status = status; body = body.now }) }
{
    let used = Reply::refused(Refusal::KeyUsed);
    status == used.status && body == used.body_bytes()
}

/// Tests whether the reply to an entry shows that its key is used: the entry was accepted, or another has the key.
fn shows_used(reply: &BookReply) -> bool
    ensures { result ≡ shows_used (seen_reply reply.now) }
{
    reply.status == 200 || is_used(reply.status, reply.body.as_slice())
}

/// Tests whether the answer is that another command has the key.
pub(crate) fn is_key_used(answer: &Answer) -> bool
    ensures { result ≡ is_reply_to (Decision KeyUsed) (seen_answer answer.now) }
{
    is_used(answer.status, answer.body.as_slice())
}

/// The number in the next key, and the number in the last used key.
#[derive(Clone, Copy)]
struct Keys {
    open: u32,
    used: u32,
}

/// Returns the number after that one.
fn number_after(number: u32) -> Result<u32, TillFault>
    ensures { IfOk result (λ n. n ≡ number + 1) }
{
    match number.checked_add(1) {
        Some(next) => Ok(next),
        None => Err(TillFault::Full),
    }
}

/// Returns the keys after these replies. The entry of the number `last` is the one before them, and used its key.
fn keys_after(last: u32, replies: &[BookReply]) -> Result<Keys, TillFault>
    ensures { IfOk result (λ keys. keys.open ≡ key_after (last + 1) (last + 1) (map seen_reply replies.now)) }
{
    let mut next = number_after(last)?;
    let mut open = next;
    let mut used = next;
    for reply in replies {
        next = number_after(next)?;
        if shows_used(reply) {
            used = open;
            open = next;
        }
    }
    Ok(Keys { open, used })
}

/// Returns the number of the last entry that its reply accepted, or 0 if there is none. The book stays.
fn last_number<S: Alter>(conn: &mut Connection<S>) -> Result<u32, TillFault>
    requires { conn.old.in_transaction ≡ false }
    ensures ended { conn.new.in_transaction ≡ false }
    ensures clean { HasCleanDisk (state S.Store conn.new) → HasCleanDisk (state S.Store conn.old) }
    ensures stays { HasCleanDisk (state S.Store conn.new) → Stays (state S.Store conn.old) (state S.Store conn.new) }
    ensures last { HasCleanDisk (state S.Store conn.new)
        → IfOk result (λ n. FindsAtRest (λ journal. n ≡ last_number journal) (state S.Store conn.old) (state S.Store conn.new)) }
{
    match last_accepted(conn) {
        Ok(Some(last)) => Ok(last.number),
        Ok(None) => Ok(0),
        Err(_) => Err(TillFault::Book),
    }
}

/// What the book has after the last entry that its reply accepted.
#[derive(Drop)]
struct Tail {
    /// The number of that entry, or 0 if there is none.
    last: u32,
    rows: BookRows,
    keys: Keys,
}

/// Reads what the book has after the last entry that its reply accepted. The book stays.
fn read_tail<S: Alter>(alloc: Global, conn: &mut Connection<S>) -> Result<Tail, TillFault>
    requires { conn.old.in_transaction ≡ false }
    ensures ended { conn.new.in_transaction ≡ false }
    ensures clean { HasCleanDisk (state S.Store conn.new) → HasCleanDisk (state S.Store conn.old) }
    ensures stays { HasCleanDisk (state S.Store conn.new) → Stays (state S.Store conn.old) (state S.Store conn.new) }
    ensures key { HasCleanDisk (state S.Store conn.new)
        → IfOk result (λ tail. HasOpenKey tail.keys.open (state S.Store conn.old)) }
{
    let last = last_number(conn)?;
    let Ok(rows) = read_after(alloc, conn, last) else {
        return Err(TillFault::Book);
    };
    let keys = keys_after(last, rows.replies.as_slice())?;
    Ok(Tail { last, rows, keys })
}

/// Reads the number in the key that the next word gets. The book stays.
pub(crate) fn read_open_key<S: Alter>(
    alloc: Global,
    conn: &mut Connection<S>,
) -> Result<u32, TillFault>
    requires { conn.old.in_transaction ≡ false }
    ensures ended { conn.new.in_transaction ≡ false }
    ensures clean { HasCleanDisk (state S.Store conn.new) → HasCleanDisk (state S.Store conn.old) }
    ensures stays { HasCleanDisk (state S.Store conn.new) → Stays (state S.Store conn.old) (state S.Store conn.new) }
    ensures key { HasCleanDisk (state S.Store conn.new)
        → IfOk result (λ number. HasOpenKey number (state S.Store conn.old)) }
{
    let tail = read_tail(alloc, conn)?;
    Ok(tail.keys.open)
}

/// Returns the end of a request under the key of that number.
fn end_under(alloc: Global, mark: &TillMark, number: u32) -> Result<Vec<u8>, AllocError> {
    let mut end = key_bytes(alloc, mark.as_bytes().as_slice(), number)?;
    end.extend_from_slice(b"\"]")?;
    Ok(end)
}

impl Tail {
    /// Tests whether an entry that was refused under the key that was used last, or later, was settled as done.
    fn is_settled(&self) -> bool {
        let settled = self.rows.settled.as_slice();
        settled
            .iter()
            .any(|it| it.number >= self.keys.used && it.reply.status == 200)
    }

    /// Tests whether the entry of that number has a request with that end.
    fn ends_with(&self, number: u32, end: &[u8]) -> bool {
        let at = number.saturating_sub(self.last).saturating_sub(1);
        match self.rows.entries.as_slice().get(at as usize) {
            Some(entry) => entry.request.as_slice().ends_with(end),
            None => false,
        }
    }

    /// Returns the entries under the last used key, if none of them is known to have used it.
    fn doubtful(&self, alloc: Global, mark: &TillMark) -> Result<Vec<EntryNumber>, TillFault> {
        let mut entries = Vec::new(alloc);
        let Keys { open, used } = self.keys;
        if self.is_settled() {
            return Ok(entries);
        }
        let end = end_under(alloc, mark, used)?;
        for number in used..open.saturating_sub(1) {
            if self.ends_with(number, end.as_slice()) {
                entries.push(EntryNumber { number })?;
            }
        }
        Ok(entries)
    }
}

/// Reads the refused entries under a key by which a later entry was refused. One of them may have been done after all.
/// If one is known to be done, returns none. The book stays.
pub(crate) fn read_doubtful<S: Alter>(
    alloc: Global,
    mark: &TillMark,
    conn: &mut Connection<S>,
) -> Result<Vec<EntryNumber>, TillFault>
    requires { conn.old.in_transaction ≡ false }
    ensures ended { conn.new.in_transaction ≡ false }
    ensures clean { HasCleanDisk (state S.Store conn.new) → HasCleanDisk (state S.Store conn.old) }
    ensures stays { HasCleanDisk (state S.Store conn.new) → Stays (state S.Store conn.old) (state S.Store conn.new) }
{
    let tail = read_tail(alloc, conn)?;
    tail.doubtful(alloc, mark)
}
