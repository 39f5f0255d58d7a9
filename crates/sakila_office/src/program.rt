//! The program for one list of words.
ghost use Rattle.std.specs.Prelude.{ℕ, List, Option, Some, None, map, string_bytes};
ghost use Rattle.shop_types.specs.Lines.{seen_line};
ghost use Rattle.office_words.specs.Line.{line_of};
ghost use Rattle.sakila_office.specs.Tasks.{task_of, task_with};
ghost use Rattle.sakila_office.specs.Printed.{IsQuiet};
ghost use Rattle.sakila_office.specs.Commands.{Puts};
ghost use Rattle.sakila_office.specs.Program.{Performs};

use crate::commands::{make, migrate, put, serve_in};
use crate::printing::{tell, tell_misplaced, tell_usage};
use crate::replays::replay;
use office_words::read_words;
use shop_types::{Line, LineAct, Refusal, Reply, Request, Usage};
use sqlite_disk::Disk;
use sqlite_std_file::File;
use std::io::{Read, Write};

/// Puts the request of head office to the chain in the file, and drops the request.
fn put_request<W: Write, E: Write>(
    rt: &HostRuntime,
    file: &str,
    request: Request,
    out: &mut W,
    err: &mut E,
) -> u8
    ensures puts { Puts ⟦<File as Disk>⟧ request result (W.contents out.old) (W.contents out.new) (E.contents err.old)
        (E.contents err.new) }
    ensures quiet { IsQuiet result (E.contents err.old) (E.contents err.new) }
{
    let status = put(rt, file, &request, out, err);
    drop(request);
    status
}

/// Does what a line with a file asks for.
fn perform_in<W: Write, E: Write>(
    rt: &HostRuntime,
    file: &str,
    act: LineAct,
    out: &mut W,
    err: &mut E,
) -> u8
    ensures performs { (input : Option (List ℕ)) → Performs ⟦<File as Disk>⟧ (task_with act (Some file.now)) result
        input input (W.contents out.old) (W.contents out.new) (E.contents err.old) (E.contents err.new) }
    ensures quiet { IsQuiet result (E.contents err.old) (E.contents err.new) }
{
    match act {
        LineAct::Init(token) => make(rt, file, &token, out, err),
        LineAct::Office(command) => put_request(rt, file, Request::Office(command), out, err),
        LineAct::OfficeLook(ask) => put_request(rt, file, Request::OfficeLook(ask), out, err),
        LineAct::Serve { port, connections } => serve_in(rt, file, port, connections, err),
        LineAct::Migrate => migrate(rt, file, out, err),
        LineAct::Replay => tell_misplaced(err),
    }
}

/// Does what a line without a file asks for.
fn perform_alone<R: Read, W: Write, E: Write>(
    rt: &HostRuntime,
    act: &LineAct,
    reader: &mut R,
    out: &mut W,
    err: &mut E,
) -> u8
    ensures performs { Performs ⟦<File as Disk>⟧ (task_with act.now None) result (R.remaining reader.old)
        (R.remaining reader.new) (W.contents out.old) (W.contents out.new) (E.contents err.old)
        (E.contents err.new) }
    ensures quiet { IsQuiet result (E.contents err.old) (E.contents err.new) }
{
    match act {
        LineAct::Replay => replay(rt.alloc(), reader, out, err),
        LineAct::Init(_)
        | LineAct::Migrate
        | LineAct::Office(_)
        | LineAct::OfficeLook(_)
        | LineAct::Serve { .. } => tell_misplaced(err),
    }
}

/// Does what the line asks for.
fn perform<R: Read, W: Write, E: Write>(
    rt: &HostRuntime,
    line: Line,
    reader: &mut R,
    out: &mut W,
    err: &mut E,
) -> u8
    ensures performs { Performs ⟦<File as Disk>⟧ (task_of (Some (seen_line line))) result (R.remaining reader.old)
        (R.remaining reader.new) (W.contents out.old) (W.contents out.new) (E.contents err.old)
        (E.contents err.new) }
    ensures quiet { IsQuiet result (E.contents err.old) (E.contents err.new) }
{
    let Line { db, act } = line;
    match db {
        Some(file) => perform_in(rt, file.as_str(), act, out, err),
        None => {
            let status = perform_alone(rt, &act, reader, out, err);
            drop(act);
            status
        }
    }
}

/// Runs the whole program for its words, without its own name, over a reader and two writers, and returns the status.
/// `docs/REQUESTS.md` lists the words. Writes on `err` what it can't do: the usage, a refusal, or `store: NAME` if
/// there is no chain in the file.
pub fn run<R: Read, W: Write, E: Write>(
    rt: &HostRuntime,
    words: &[String],
    reader: &mut R,
    out: &mut W,
    err: &mut E,
) -> u8
    ensures performs { Performs ⟦<File as Disk>⟧ (task_of (line_of (map string_bytes words.now))) result
        (R.remaining reader.old) (R.remaining reader.new) (W.contents out.old) (W.contents out.new)
        (E.contents err.old) (E.contents err.new) }
    ensures quiet { IsQuiet result (E.contents err.old) (E.contents err.new) }
{
    match read_words(rt.alloc(), words) {
        Ok(line) => perform(rt, line, reader, out, err),
        Err(Usage::Words(text)) => tell_usage(text.as_str(), err),
        Err(Usage::Memory) => tell(&Reply::refused(Refusal::Memory), out, err),
    }
}
