//! A connection, from its first byte to its end.
ghost use Rattle.std.specs.Prelude.{◌≡◌, Ok, IfOk, IfErr};
ghost use Rattle.std.specs.Io.KnownBytes.{Keeps};
ghost use Rattle.counter_http.specs.Exchanges.{RunsOver};
ghost use Rattle.counter_http.specs.Served.{IsServed, IsFault, fault_replies};

use crate::machine::{Connection, Phase, Switchboard, TurnFault};
use chain_engine::Chain;
use shop_types::OfficeWords;
use sqlite::Alter;
use std::alloc::Global;
use std::io::{Read, Write};

/// Why a connection ended. If several reasons hold at one reply, it is the first of `StoreFailed`, `Refused`, `Asked`
/// and `Limit`.
#[derive(Clone, Copy)]
pub enum End {
    /// The input ended after a whole request, or before the first.
    Closed,
    /// The input ended inside a request, which got no reply and changed nothing.
    Cut,
    /// The last request asked for it: by HTTP/1.0, or by an item `close` in a `connection` field.
    Asked,
    /// As many requests were answered as were allowed.
    Limit,
    /// What came next is no message, and was refused.
    Refused,
    /// The store failed at the last request.
    StoreFailed,
}

/// How many replies were written, and why the connection ended.
#[derive(Clone, Copy)]
pub struct Served {
    pub replies: u32,
    pub end: End,
}

/// What went wrong, with the number of replies that were wholly written before.
#[derive(Clone, Copy, Debug)]
pub enum ServeFault {
    /// The reader failed, or there was no memory for a long request. Each request that was read whole has been
    /// answered.
    Read { replies: u32 },
    /// The writer failed. The request whose reply failed has acted, and a front of its reply may have been written.
    Write { replies: u32 },
    /// There was no memory for the connection or its routes. Nothing was read or written.
    Memory,
}

/// Reads requests and writes the replies to them, until the input or the connection ends, or `max_requests` are
/// answered. With 0 nothing is read. However the reader cuts its bytes, the messages in them get their replies, in
/// order. The connection takes its memory before the first byte is read, except for a request of more than 4,096 bytes.
/// `words` reads the words that head office sends. Over a chain that has failed each reply is `store_failed`, and its
/// store isn't asked.
pub fn serve<R: Read, W: Write, O: OfficeWords, S: Alter>(
    alloc: Global,
    reader: &mut R,
    writer: &mut W,
    chain: &mut Chain<S>,
    words: &O,
    max_requests: u32,
) -> Result<Served, ServeFault>
    ensures served { IfOk result (λ served. IsServed served max_requests
        (RunsOver S.Store (O.meaning words.now) chain.old chain.new) (R.remaining reader.old)
        (R.remaining reader.new) (W.contents writer.old) (W.contents writer.new)) }
    ensures fault { IfErr result (λ fault. IsFault fault max_requests
        (RunsOver S.Store (O.meaning words.now) chain.old chain.new) (R.remaining reader.old)
        (R.remaining reader.new) (W.contents writer.old) (W.contents writer.new)) }
    ensures none_allowed { max_requests ≡ 0
        → (result ≡ Ok (record { replies = 0; end = End.Limit })) × (chain.new ≡ chain.old) × Keeps
        (R.remaining reader.old) (R.remaining reader.new) × Keeps (W.contents writer.old) (W.contents writer.new) }
{
    if max_requests == 0 {
        return Ok(Served {
            replies: 0,
            end: End::Limit,
        });
    }
    let Ok(mut connection) = Connection::new(alloc, max_requests) else {
        return Err(ServeFault::Memory);
    };
    let Ok(board) = Switchboard::new(alloc) else {
        return Err(ServeFault::Memory);
    };
    // It has one turn, in which as many requests may be answered as of the whole connection: so it has no next one.
    let turn = connection.advance(alloc, reader, writer, chain, &board, words, max_requests);
    let (replies, told) = (connection.replies(), connection.told());
    drop(connection);
    drop(board);
    match turn {
        Ok(Phase::Ended(end)) => Ok(Served {
            replies: replies + refusals(end),
            end,
        }),
        Ok(Phase::Reads) => Err(ServeFault::Read { replies }),
        Ok(Phase::Writes) => Err(ServeFault::Write { replies: told }),
        Ok(Phase::Ready) => unreachable!(),
        Err(TurnFault::Read) => Err(ServeFault::Read { replies }),
        Err(TurnFault::Write) => Err(ServeFault::Write { replies: told }),
    }
}

/// Returns how many replies to a text that is no message a connection got before this end: 0 or 1.
fn refusals(end: End) -> u32
    ensures { result ≡ fault_replies end }
{
    match end {
        End::Refused => 1,
        End::Closed | End::Cut | End::Asked | End::Limit | End::StoreFailed => 0,
    }
}
