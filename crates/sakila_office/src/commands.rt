//! A chain in a file: the program makes it, migrates it, puts one request of head office to it, or serves connections.
ghost use Rattle.std.specs.Prelude.{◌≡◌, ◌⊎◌, ℕ, true, List, Option};
ghost use Rattle.office_words.specs.Line.{line_of};
ghost use Rattle.counter_http.specs.Exchanges.{Exchange, RunsOver};
ghost use Rattle.sakila_office.specs.Printed.{IsQuiet};
ghost use Rattle.sakila_office.specs.Commands.{Makes, Migrates, Puts, Serves};

use crate::printing::{print, tell, tell_fault};
use crate::rights::{make_owned, missing_log, own};
use crate::serving::serve_listener;
use chain_engine::{Chain, OpenFault};
use office_words::ClapWords;
use shop_types::{Caller, Limits, Refusal, Reply, Request, Token};
use sqlite::Alter;
use sqlite_disk::Disk;
use sqlite_std_file::File;
use std::alloc::AllocGlobal;
use std::io::Write;
use std::net::{Ipv4Addr, Net, TcpListener, TcpStream};
use std::time::{Clock, Duration};

/// How many seconds the server waits for a peer that sends no whole request, or takes nothing of a reply.
const PATIENCE: u64 = 30;

/// Makes a chain in the file, and prints its version.
pub(crate) fn make<W: Write, E: Write>(
    rt: &HostRuntime,
    file: &str,
    token: &Token,
    out: &mut W,
    err: &mut E,
) -> u8
    ensures makes { Makes ⟦<File as Disk>⟧ token.now result (W.contents out.old) (W.contents out.new)
        (E.contents err.old) (E.contents err.new) }
    ensures quiet { IsQuiet result (E.contents err.old) (E.contents err.new) }
{
    make_owned(rt, file);
    let log = missing_log(rt, file);
    match Chain::create(rt, file, Limits::default(), token) {
        Ok(chain) => {
            own(rt, &log);
            drop(chain.close());
            print(out, b"{\"version\":2}")
        }
        Err((OpenFault::Already, left)) => {
            drop(left);
            own(rt, &log);
            tell(&Reply::refused(Refusal::Already), out, err)
        }
        Err((fault, left)) => {
            drop(left);
            own(rt, &log);
            tell_fault(fault, err)
        }
    }
}

/// Turns the chain of version 1 in the file into one of this version, and prints that version.
pub(crate) fn migrate<W: Write, E: Write>(
    rt: &HostRuntime,
    file: &str,
    out: &mut W,
    err: &mut E,
) -> u8
    ensures migrates { Migrates ⟦<File as Disk>⟧ result (W.contents out.old) (W.contents out.new) (E.contents err.old)
        (E.contents err.new) }
    ensures quiet { IsQuiet result (E.contents err.old) (E.contents err.new) }
{
    let log = missing_log(rt, file);
    match Chain::migrate(rt, file, Limits::default()) {
        Ok(chain) => {
            own(rt, &log);
            drop(chain.close());
            print(out, b"{\"version\":2}")
        }
        Err((OpenFault::Already, left)) => {
            drop(left);
            own(rt, &log);
            tell(&Reply::refused(Refusal::Already), out, err)
        }
        Err((fault, left)) => {
            drop(left);
            own(rt, &log);
            tell_fault(fault, err)
        }
    }
}

/// Puts the request of head office to the chain in the file, and prints the answer.
pub(crate) fn put<W: Write, E: Write>(
    rt: &HostRuntime,
    file: &str,
    request: &Request,
    out: &mut W,
    err: &mut E,
) -> u8
    ensures puts { Puts ⟦<File as Disk>⟧ request.now result (W.contents out.old) (W.contents out.new)
        (E.contents err.old) (E.contents err.new) }
    ensures quiet { IsQuiet result (E.contents err.old) (E.contents err.new) }
{
    let log = missing_log(rt, file);
    match Chain::open(rt, file, Limits::default()) {
        Ok(mut chain) => {
            own(rt, &log);
            let reply = chain.answer(&Caller::Office, request);
            drop(chain.close());
            tell(&reply, out, err)
        }
        Err((fault, left)) => {
            drop(left);
            own(rt, &log);
            tell_fault(fault, err)
        }
    }
}

/// Serves so many connections at the port of this machine by the chain, as the program does. A peer that keeps the
/// server waiting is disconnected after half a minute. With port 0 the listener gets any free port, and `rt`, which
/// opens the listener, can find out which. Returns 0 if all connections were served. Returns 3 if the port can't be
/// opened, no more connections could be accepted, or the store failed.
pub fn serve_port<
    R: Net<Listener = TcpListener, Stream = TcpStream> + Clock + AllocGlobal,
    S: Alter,
>(rt: &R, chain: &mut Chain<S>, port: u16, connections: u32) -> u8
    ensures ran { (exchanges : List Exchange) × RunsOver S.Store line_of chain.old chain.new exchanges }
    ensures status { (result ≡ 0) ⊎ (result ≡ 3) }
    ensures failed { chain.new.is_failed ≡ true → result ≡ 3 }
{
    let Ok(listener) = TcpListener::bind(rt, (Ipv4Addr::LOCALHOST, port)) else {
        return 3;
    };
    serve_listener(
        rt,
        &listener,
        chain,
        &ClapWords { alloc: rt.alloc() },
        connections,
        Duration::from_secs(PATIENCE),
    )
}

/// Serves so many connections at the port by the chain in the file.
pub(crate) fn serve_in<E: Write>(
    rt: &HostRuntime,
    file: &str,
    port: u16,
    connections: u32,
    err: &mut E,
) -> u8
    ensures serves { (output : Option (List ℕ))
        → Serves ⟦<File as Disk>⟧ result output output (E.contents err.old) (E.contents err.new) }
    ensures quiet { IsQuiet result (E.contents err.old) (E.contents err.new) }
{
    let log = missing_log(rt, file);
    match Chain::open(rt, file, Limits::default()) {
        Ok(mut chain) => {
            own(rt, &log);
            let status = serve_port(rt, &mut chain, port, connections);
            drop(chain.close());
            status
        }
        Err((fault, left)) => {
            drop(left);
            own(rt, &log);
            tell_fault(fault, err)
        }
    }
}
