//! What is printed, and the status that goes with it.
ghost use Rattle.std.specs.Prelude.{◌≡◌, OnOk, OnErr};
ghost use Rattle.std.specs.Io.KnownBytes.{Appends};
ghost use Rattle.shop_types.specs.Replies.{seen_reply};
ghost use Rattle.sakila_office.specs.Printed.{line_bytes, IsCutOff, IsPrinted, IsQuiet, IsTold};

use chain_engine::OpenFault;
use counter_http::write_whole;
use shop_types::Reply;
use std::io::{self, Write};

fn write_line<W: Write>(writer: &mut W, text: &[u8]) -> io::Result<()>
    ensures ok { OnOk result (Appends (W.contents writer.old) (W.contents writer.new) (line_bytes text.now)) }
    ensures err { OnErr result (IsCutOff (line_bytes text.now) (W.contents writer.old) (W.contents writer.new)) }
{
    write_whole(writer, text)?;
    write_whole(writer, b"\n")
}

/// Prints a line on standard output, and returns status 0. If standard output fails before the line's end, returns 3.
pub(crate) fn print<W: Write>(out: &mut W, text: &[u8]) -> u8
    ensures { IsPrinted text.now result (W.contents out.old) (W.contents out.new) }
{
    match write_line(out, text) {
        Ok(()) => 0,
        Err(_) => 3,
    }
}

/// Prints what a chain replied: an accepted answer on standard output, a refusal on standard error.
pub(crate) fn tell<W: Write, E: Write>(reply: &Reply, out: &mut W, err: &mut E) -> u8
    ensures told { IsTold (seen_reply reply.now) result (W.contents out.old) (W.contents out.new) (E.contents err.old)
        (E.contents err.new) }
    ensures quiet { IsQuiet result (E.contents err.old) (E.contents err.new) }
{
    if reply.status == 200 {
        return print(out, reply.body_bytes());
    }
    let _ = write_line(err, reply.body_bytes());
    if reply.status == 503 { 3 } else { 1 }
}

/// Prints why there is no chain.
pub(crate) fn tell_fault<E: Write>(fault: OpenFault, err: &mut E) -> u8
    ensures { result ≡ 3 }
{
    let _ = writeln!(err, "store: {fault}");
    3
}

/// Prints what is wrong with the words.
pub(crate) fn tell_usage<E: Write>(text: &str, err: &mut E) -> u8
    ensures { result ≡ 2 }
{
    let _ = write_line(err, text.trim_end().as_bytes());
    2
}

/// Prints that `--db` is missing, or that it isn't allowed here.
pub(crate) fn tell_misplaced<E: Write>(err: &mut E) -> u8
    ensures { result ≡ 2 }
{
    let _ = write_line(err, b"usage: --db");
    2
}
