//! Sending the oldest entry without a reply, and recording its reply.

ghost use Rattle.std.specs.Prelude.{◌≡◌, ◌↔◌, false, IsTrue, IfOk, IfErr};
ghost use Rattle.sqlite.specs.Held.{state};
ghost use Rattle.sqlite.specs.State.{HasCleanDisk, Survives};
ghost use Rattle.shop_model.specs.Refusals.{NoCounter};
ghost use Rattle.shop_model.specs.Machine.{Sorry};
ghost use Rattle.shop_model.specs.Answers.{answer_of};
ghost use Rattle.till_client.specs.Replies.{seen_answer};
ghost use Rattle.till_work.specs.Delivering.{Delivers, FailsToDeliver, MayLeave};

use crate::fault::DeskFault;
use counter_routes::Routes;
use shop_types::{Refusal, Reply};
use sqlite::{Alter, Connection};
use std::alloc::Global;
use std::io::{Read, Write};
use till_book::{oldest, record};
use till_client::{Answer, ask};

/// Returns whether the reply is that the server doesn't know who asks.
fn is_unknown(answer: &Answer) -> bool
    ensures { IsTrue result ↔ (seen_answer answer.now ≡ answer_of (Sorry NoCounter)) }
{
    let unknown = Reply::refused(Refusal::NoCounter);
    answer.status == unknown.status && answer.body.as_slice() == unknown.body_bytes()
}

/// Sends the oldest entry that has no reply, over a connection that is there for it alone, and records the reply that
/// came. `next` is the number of the next reply. If every entry has its reply, nothing is written or read.
///
/// An entry is on the disk before its first byte is written, and stays the oldest until its reply is on the disk too:
/// whatever fails, the next call sends the same bytes again. A reply with status 503 is none, and so is `no_counter`:
/// a server that was started over another file decides nothing of an entry.
pub fn deliver<S: Alter, R: Read, W: Write>(
    alloc: Global,
    routes: &Routes,
    conn: &mut Connection<S>,
    next: u32,
    reader: &mut R,
    writer: &mut W,
) -> Result<Option<Answer>, DeskFault>
    requires { conn.old.in_transaction ≡ false }
    ensures ended { conn.new.in_transaction ≡ false }
    ensures delivers { HasCleanDisk (state S.Store conn.new)
        → IfOk result (λ answer. Delivers next answer (state S.Store conn.old) (state S.Store conn.new)
        (R.remaining reader.old) (R.remaining reader.new) (W.contents writer.old) (W.contents writer.new)) }
    ensures fault { HasCleanDisk (state S.Store conn.new)
        → IfErr result (λ fault. FailsToDeliver next fault (state S.Store conn.old) (state S.Store conn.new)
        (W.contents writer.old) (W.contents writer.new)) }
    ensures crash { Survives (state S.Store conn.old) (state S.Store conn.new)
        (MayLeave next (state S.Store conn.old) (R.remaining reader.old) (R.remaining reader.new)
        (W.contents writer.old) (W.contents writer.new)) }
{
    let request = match oldest(conn, next) {
        Ok(Some(request)) => request,
        Ok(None) => return Ok(None),
        Err(_) => return Err(DeskFault::Book),
    };
    let answer = match ask(alloc, reader, writer, request.as_slice()) {
        Ok(answer) => answer,
        Err(fault) => return Err(DeskFault::Unanswered(fault)),
    };
    if answer.status == 503 {
        return Err(DeskFault::NotNow);
    }
    if is_unknown(&answer) {
        return Err(DeskFault::NotKnown);
    }
    match record(
        alloc,
        routes,
        conn,
        next,
        u32::from(answer.status),
        &answer.body,
    ) {
        Ok(()) => Ok(Some(answer)),
        Err(_) => Err(DeskFault::Book),
    }
}
