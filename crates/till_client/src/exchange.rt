//! Sends one request over a connection and reads its reply.

ghost use Rattle.std.specs.Prelude.{◌≡◌, ◌++◌, ℕ, List, length, IfOk, IfErr, OnOk};
ghost use Rattle.std.specs.Io.KnownBytes.{Appends, Consumes};
ghost use Rattle.till_client.specs.Replies.{seen_answer, answer_bytes};
ghost use Rattle.till_client.specs.Exchanges.{IsOfReading, FailsToAsk};

use crate::replies::{Answer, ReplyReading, read_reply};
use http_messages::write_whole;
use std::alloc::Global;
use std::io::{Read, Write};

/// How many bytes are read at a time.
const PIECE: usize = 16384;

/// Why there is no answer. Except for `Write`, the server may have done the request, or not.
#[derive(Debug, Drop)]
pub enum AskFault {
    /// Not all of the request was written, so the server doesn't do it by this connection.
    Write,
    /// A read failed, or no bytes came within the time that the connection allows.
    Read,
    /// The input ended before the reply did.
    Cut,
    /// What came is no reply as the server writes them.
    Foreign,
    /// There was no memory for the reply.
    Memory,
}

/// Reads more bytes. Reads none only at the end of the input.
fn read_more<R: Read>(reader: &mut R, inbox: &mut Vec<u8>) -> Result<usize, AskFault>
    ensures ok { IfOk result (λ n. (more : List ℕ) × Consumes (R.remaining reader.old) (R.remaining reader.new) more
        × (inbox.new.items ≡ inbox.old.items ++ more) × (length more ≡ n)) }
    ensures fault { IfErr result IsOfReading }
{
    let mut piece = [0u8; PIECE];
    let Ok(n) = reader.read(&mut piece) else {
        return Err(AskFault::Read);
    };
    let Ok(()) = inbox.extend_from_slice(&piece[..n]) else {
        return Err(AskFault::Memory);
    };
    Ok(n)
}

/// Reads a reply. All that was read is the bytes of this reply, and nothing after them.
pub fn read_answer<R: Read>(alloc: Global, reader: &mut R) -> Result<Answer, AskFault>
    ensures told { IfOk result (λ answer. Consumes (R.remaining reader.old) (R.remaining reader.new)
        (answer_bytes (seen_answer answer))) }
    ensures fault { IfErr result IsOfReading }
{
    let mut inbox = Vec::new(alloc);
    'reads: for _ in 0..u64::MAX {
        match read_reply(&inbox) {
            ReplyReading::Whole(reply) => {
                let Ok(body) = Vec::from_slice(alloc, reply.body) else {
                    return Err(AskFault::Memory);
                };
                return Ok(Answer {
                    status: reply.status,
                    body,
                });
            }
            ReplyReading::More => {}
            ReplyReading::Foreign => return Err(AskFault::Foreign),
        }
        if read_more(reader, &mut inbox)? == 0 {
            return Err(AskFault::Cut);
        }
    }
    Err(AskFault::Cut)
}

/// Sends the request and reads its reply. The whole request was written, and what was read is the returned reply. If a
/// write failed, a front of the request was written, and not all. After any other fault, all of it was written: send
/// the request again, byte for byte.
pub fn ask<R: Read, W: Write>(
    alloc: Global,
    reader: &mut R,
    writer: &mut W,
    request: &[u8],
) -> Result<Answer, AskFault>
    ensures sent { OnOk result (Appends (W.contents writer.old) (W.contents writer.new) request.now) }
    ensures told { IfOk result (λ answer. Consumes (R.remaining reader.old) (R.remaining reader.new)
        (answer_bytes (seen_answer answer))) }
    ensures fault { IfErr result (λ fault. FailsToAsk fault request.now (W.contents writer.old)
        (W.contents writer.new)) }
{
    let Ok(()) = write_whole(writer, request) else {
        return Err(AskFault::Write);
    };
    read_answer(alloc, reader)
}
