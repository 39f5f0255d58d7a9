//! The requests of an input, answered by a chain in memory.
ghost use Rattle.std.specs.Prelude.{◌≡◌};
ghost use Rattle.sakila_office.specs.Printed.{IsQuiet};
ghost use Rattle.sakila_office.specs.Replays.{status_of, Replays};

use crate::printing::tell_fault;
use crate::serving::MOST_REQUESTS;
use chain_engine::Chain;
use counter_http::{End, serve};
use office_words::ClapWords;
use shop_types::Limits;
use std::alloc::Global;
use std::io::{Read, Write};

/// Returns the program's status after a connection with this end.
fn status(end: End) -> u8
    ensures { result ≡ status_of end }
{
    match end {
        End::Closed | End::Asked | End::Limit => 0,
        End::Cut | End::Refused => 1,
        End::StoreFailed => 3,
    }
}

/// Answers the reader's requests by a new chain with the opening rows.
pub(crate) fn replay<R: Read, W: Write, E: Write>(
    alloc: Global,
    reader: &mut R,
    out: &mut W,
    err: &mut E,
) -> u8
    ensures replays { Replays result (R.remaining reader.old) (R.remaining reader.new) (W.contents out.old)
        (W.contents out.new) (E.contents err.old) (E.contents err.new) }
    ensures quiet { IsQuiet result (E.contents err.old) (E.contents err.new) }
{
    let mut chain = match Chain::demo(alloc, Limits::default()) {
        Ok(chain) => chain,
        Err(fault) => return tell_fault(fault, err),
    };
    let words = ClapWords { alloc };
    match serve(alloc, reader, out, &mut chain, &words, MOST_REQUESTS) {
        Ok(served) => status(served.end),
        Err(_) => 3,
    }
}
