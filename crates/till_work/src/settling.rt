//! Making sure of a refused entry that may have been sent more than once: it is sent once more, and what that decides is
//! recorded.

ghost use Rattle.std.specs.Prelude.{◌≡◌, false, IfOk, IfErr};
ghost use Rattle.sqlite.specs.Held.{state};
ghost use Rattle.sqlite.specs.State.{HasCleanDisk, Survives};
ghost use Rattle.till_client.specs.Replies.{seen_answer};
ghost use Rattle.till_book.specs.Seen.{seen_reply};
ghost use Rattle.till_work.specs.Settling.{IsSettledBy, IsKept, Settles, FailsToSettle, LeavesDecision, MayNote};

use crate::fault::DeskFault;
use counter_routes::Routes;
use shop_types::{Refusal, Reply};
use sql_rows::StoreFault;
use sqlite::{Alter, Connection};
use std::alloc::Global;
use std::io::{Read, Write};
use till_book::{BookReply, note_settled, request_of, settlement_of};
use till_client::{Answer, ask};

/// The outcome of an entry, by the reply that it got when it was sent once more.
#[derive(Drop)]
pub enum Settled {
    /// It has acted, and this is its reply.
    Acted(Answer),
    /// Its moment is before the branch's last: it never acts, even if it arrives late.
    Never,
    /// Neither: it isn't settled yet.
    Open(Answer),
}

/// Returns the outcome of an entry by the reply that it got when it was sent once more.
fn settled_by(answer: Answer) -> Settled
    ensures { IsSettledBy (seen_answer answer) result }
{
    if answer.status == 200 {
        return Settled::Acted(answer);
    }
    let back = Reply::refused(Refusal::MomentBack);
    if answer.status == back.status && answer.body.as_slice() == back.body_bytes() {
        Settled::Never
    } else {
        Settled::Open(answer)
    }
}

/// Copies a reply in the book as an answer.
fn answer_in(alloc: Global, reply: &BookReply) -> Result<Answer, StoreFault>
    ensures { IfOk result (λ answer. seen_answer answer ≡ seen_reply reply.now) }
{
    Ok(Answer {
        status: reply.status,
        body: Vec::from_slice(alloc, reply.body.as_slice())?,
    })
}

/// Returns the outcome of an entry by the reply that it got when it was sent once more, and records a decision.
fn keep<S: Alter>(
    alloc: Global,
    routes: &Routes,
    conn: &mut Connection<S>,
    number: u32,
    answer: Answer,
) -> Result<Settled, StoreFault>
    requires { conn.old.in_transaction ≡ false }
    ensures ended { conn.new.in_transaction ≡ false }
    ensures says { IfOk result (IsSettledBy (seen_answer answer)) }
    ensures kept { HasCleanDisk (state S.Store conn.new)
        → IfOk result (λ settled. IsKept number (seen_answer answer) settled (state S.Store conn.old)
        (state S.Store conn.new)) }
    ensures crash { Survives (state S.Store conn.old) (state S.Store conn.new)
        (LeavesDecision number (seen_answer answer) (state S.Store conn.old)) }
{
    match settled_by(answer) {
        Settled::Acted(answer) => {
            note_settled(
                alloc,
                routes,
                conn,
                number,
                u32::from(answer.status),
                &answer.body,
            )?;
            Ok(Settled::Acted(answer))
        }
        Settled::Never => {
            let back = Reply::refused(Refusal::MomentBack);
            note_settled(
                alloc,
                routes,
                conn,
                number,
                u32::from(back.status),
                back.body_bytes(),
            )?;
            Ok(Settled::Never)
        }
        Settled::Open(answer) => Ok(Settled::Open(answer)),
    }
}

/// Sends the entry of that number once more, byte for byte, over a connection that is there for it alone, and returns
/// its outcome. A decision, `Acted` or `Never`, is recorded. From then on it is read from the book, and nothing is
/// sent. A reply with status 503 is none.
pub fn settle<S: Alter, R: Read, W: Write>(
    alloc: Global,
    routes: &Routes,
    conn: &mut Connection<S>,
    number: u32,
    reader: &mut R,
    writer: &mut W,
) -> Result<Settled, DeskFault>
    requires { conn.old.in_transaction ≡ false }
    ensures ended { conn.new.in_transaction ≡ false }
    ensures settles { HasCleanDisk (state S.Store conn.new)
        → IfOk result (λ settled. Settles number settled (state S.Store conn.old) (state S.Store conn.new)
        (R.remaining reader.old) (R.remaining reader.new) (W.contents writer.old) (W.contents writer.new)) }
    ensures fault { HasCleanDisk (state S.Store conn.new)
        → IfErr result (λ fault. FailsToSettle number fault (state S.Store conn.old) (state S.Store conn.new)
        (W.contents writer.old) (W.contents writer.new)) }
    ensures crash { Survives (state S.Store conn.old) (state S.Store conn.new)
        (MayNote number (state S.Store conn.old) (R.remaining reader.old) (R.remaining reader.new)
        (W.contents writer.old) (W.contents writer.new)) }
{
    match settlement_of(conn, number) {
        Ok(None) => {}
        Ok(Some(reply)) => match answer_in(alloc, &reply) {
            Ok(answer) => return Ok(settled_by(answer)),
            Err(_) => return Err(DeskFault::Book),
        },
        Err(_) => return Err(DeskFault::Book),
    }
    let request = match request_of(conn, number) {
        Ok(Some(request)) => request,
        Ok(None) => return Err(DeskFault::NoEntry),
        Err(_) => return Err(DeskFault::Book),
    };
    let answer = match ask(alloc, reader, writer, request.as_slice()) {
        Ok(answer) => answer,
        Err(fault) => return Err(DeskFault::Unanswered(fault)),
    };
    if answer.status == 503 {
        return Err(DeskFault::NotNow);
    }
    match keep(alloc, routes, conn, number, answer) {
        Ok(settled) => Ok(settled),
        Err(_) => Err(DeskFault::Book),
    }
}
