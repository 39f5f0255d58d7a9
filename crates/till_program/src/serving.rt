//! A desk serves its windows side by side, and does their words one after another.

ghost use Rattle.std.specs.Prelude.{◌≡◌, false, map, string_bytes, IfOk, IfSome};
ghost use Rattle.till_program.specs.Serving.{ActsAlone, IsLooked, IsServed, own_words};

use crate::faults::ShopFault;
use crate::handling::DeskBook;
use crate::opening::{OpenBook, close_if_asked};
use crate::peers::Peer;
use crate::probing::{PROBE, Probe};
use crate::program::{Asks, Station, Stock, Words, perform_words};
use crate::way::{Patience, Way};
use mio::unix::SourceFd;
use mio::{Events, Interest, Poll, Token};
use std::alloc::{AllocError, Global};
use std::io::{self, ErrorKind};
use std::net::{SocketAddr, TcpListener, TcpStream};
use std::os::fd::AsRawFd;
use std::time::{Clock, Duration};
use till_cashier::Link;

/// How many connections there are at most.
const MOST_OPEN: usize = 256;

/// How many connections are accepted before the others have their turn.
const MOST_ARRIVALS: u32 = 16;

/// The listener's own token. The connections have the tokens after it, in the order in which they come.
const LISTENER: usize = 0;

/// How many milliseconds the desk waits before it looks again whether another process asks for the book.
const LOOKS: u64 = 500;

/// What serving needs beside the book.
#[derive(Drop)]
struct Desk {
    poll: Poll,
    events: Events,
    /// The connections that are open, in the order in which they came.
    peers: Vec<Peer>,
    /// How many connections were accepted.
    accepted: usize,
    /// Whether the listener may have a connection without waiting.
    may_accept: bool,
    probe: Probe,
    /// Whether the connection that is tried has an outcome.
    is_probed: bool,
    /// Where the server is, if its name was found.
    server: Option<SocketAddr>,
    /// When the desk last looked who is ready.
    now: Duration,
}

/// Returns the clock's time, or `before` if the clock fails.
fn time(rt: &HostRuntime, before: Duration) -> Duration {
    rt.monotonic().unwrap_or(before)
}

fn register(poll: &Poll, fd: i32, token: usize, interests: Interest) -> io::Result<()> {
    poll.registry()
        .register(&mut SourceFd(&fd), Token(token), interests)
}

impl Desk {
    fn new(
        rt: &HostRuntime,
        listener: &TcpListener,
        server: Option<SocketAddr>,
    ) -> Result<Desk, ShopFault> {
        let alloc = rt.alloc();
        let poll = Poll::new(rt)?;
        listener.set_nonblocking(true)?;
        register(&poll, listener.as_raw_fd(), LISTENER, Interest::READABLE)?;
        Ok(Desk {
            poll,
            events: Events::with_capacity(alloc, MOST_OPEN)?,
            peers: Vec::new(alloc),
            accepted: 0,
            may_accept: true,
            probe: Probe::new(),
            is_probed: false,
            server,
            now: rt.monotonic()?,
        })
    }

    /// Opens a connection. Drops it if there is no memory for it, or if it is gone already.
    fn open(&mut self, rt: &HostRuntime, stream: TcpStream) -> io::Result<()> {
        stream.set_nonblocking(true)?;
        stream.set_nodelay(true)?;
        self.accepted = self.accepted.saturating_add(1);
        let both = Interest::READABLE | Interest::WRITABLE;
        register(&self.poll, stream.as_raw_fd(), self.accepted, both)?;
        let peer = Peer::new(rt.alloc(), self.accepted, stream, time(rt, self.now));
        self.peers.push(peer)?;
        Ok(())
    }

    /// Drops the connection that has been silent longest, if all places are taken.
    fn make_place(&mut self) {
        if self.peers.len() < MOST_OPEN {
            return;
        }
        let first = self.peers.iter().filter_map(|peer| peer.asks_since()).min();
        for peer in &mut self.peers {
            if peer.asks_since() == first {
                peer.let_go();
                break;
            }
        }
        self.peers.retain(|peer| !peer.is_gone());
    }

    /// Accepts some connections. Returns false if the listener failed.
    fn arrivals(&mut self, rt: &HostRuntime, listener: &TcpListener) -> bool {
        for _ in 0..MOST_ARRIVALS {
            if !self.may_accept {
                return true;
            }
            self.make_place();
            match listener.accept() {
                Ok((stream, _)) => {
                    let _ = self.open(rt, stream);
                }
                Err(error) => match error.kind() {
                    ErrorKind::WouldBlock => self.may_accept = false,
                    ErrorKind::Interrupted | ErrorKind::ConnectionAborted => {}
                    _ => return false,
                },
            }
        }
        true
    }

    /// Returns for how long nothing need happen.
    fn longest_wait(&self, line: Link) -> Duration {
        if self.may_accept || self.peers.iter().any(|peer| peer.is_ready) {
            return Duration::ZERO;
        }
        let mut wait = Duration::from_millis(LOOKS);
        if line.is_down() {
            wait = wait.min(self.probe.deadline().saturating_sub(self.now));
        }
        for peer in &self.peers {
            wait = wait.min(peer.deadline().saturating_sub(self.now));
        }
        wait
    }

    /// Notes who is ready.
    fn note(&mut self) {
        for event in &self.events {
            let Token(token) = event.token();
            if token == LISTENER {
                self.may_accept = true;
            }
            if token == PROBE {
                self.is_probed = true;
            }
            for peer in &mut self.peers {
                if peer.token == token {
                    peer.is_ready = true;
                }
            }
        }
    }

    /// Waits until something is ready, unless something is already. Returns false if the poll failed.
    fn wait(&mut self, rt: &HostRuntime, line: Link) -> bool {
        let wait = self.longest_wait(line);
        if self.poll.poll(&mut self.events, Some(wait)).is_err() {
            return false;
        }
        self.now = time(rt, self.now);
        self.note();
        true
    }

    /// Gives each window that is ready its turn, and forgets those that are gone.
    fn turns(
        &mut self,
        rt: &HostRuntime,
        desk: &DeskBook,
        line: &mut Link,
        held: &mut Option<OpenBook>,
    )
        requires { IfSome held.old (λ book. book.conn.in_transaction ≡ false) }
        ensures ended { IfSome held.new (λ book. book.conn.in_transaction ≡ false) }
        ensures served { IsServed (string_bytes desk.now.name) desk.now.secret held.old held.new }
    {
        'peers: for peer in &mut self.peers {
            if peer.is_ready {
                peer.turn(rt, desk, time(rt, self.now), line, held);
            }
            peer.expire(rt.alloc(), self.now);
        }
        self.peers.retain(|peer| !peer.is_gone());
    }

    /// While the line to the server is down, tries a connection every few seconds. Once the server takes one, what waits
    /// is sent.
    fn try_line(
        &mut self,
        rt: &HostRuntime,
        desk: &DeskBook,
        line: &mut Link,
        held: &mut Option<OpenBook>,
    )
        requires { IfSome held.old (λ book. book.conn.in_transaction ≡ false) }
        ensures ended { IfSome held.new (λ book. book.conn.in_transaction ≡ false) }
        ensures alone { ActsAlone (string_bytes desk.now.name) held.old held.new }
    {
        if !line.is_down() {
            return;
        }
        if !self.is_probed {
            self.probe.go_on(rt, &self.poll, self.server, self.now);
            return;
        }
        self.is_probed = false;
        if self.probe.is_taken(self.now) {
            *line = send_waiting(rt, desk, *line, held);
            self.now = time(rt, self.now);
            if line.is_down() {
                self.probe.put_off(self.now);
            }
        }
    }

    /// Serves until the listener or the poll fails.
    fn serve(
        &mut self,
        rt: &HostRuntime,
        listener: &TcpListener,
        desk: &DeskBook,
        held: &mut Option<OpenBook>,
    )
        requires { IfSome held.old (λ book. book.conn.in_transaction ≡ false) }
        ensures ended { IfSome held.new (λ book. book.conn.in_transaction ≡ false) }
        ensures served { IsServed (string_bytes desk.now.name) desk.now.secret held.old held.new }
    {
        let mut line = first_line(held);
        'rounds: for _ in 0..u64::MAX {
            if !self.arrivals(rt, listener) || !self.wait(rt, line) {
                return;
            }
            self.turns(rt, desk, &mut line, held);
            self.try_line(rt, desk, &mut line, held);
            close_if_asked(rt, held);
        }
    }
}

/// Returns what a desk takes the line for at its start. If an entry of its book waits, the line is taken for down: then
/// the desk tries the server, and sends what waits.
fn first_line(held: &mut Option<OpenBook>) -> Link
    requires { IfSome held.old (λ book. book.conn.in_transaction ≡ false) }
    ensures ended { IfSome held.new (λ book. book.conn.in_transaction ≡ false) }
    ensures looked { IsLooked held.old held.new }
{
    let Some(mut book) = held.take() else {
        return Link::Open;
    };
    let has_waiting = book.has_waiting();
    *held = Some(book);
    if has_waiting { Link::Down } else { Link::Open }
}

/// Returns the words by which a desk sends what waits in the book of that name.
fn send_words(alloc: Global, name: &str) -> Result<Vec<String>, AllocError>
    ensures { IfOk result (λ words. map string_bytes words.items ≡ own_words name.now) }
{
    let mut words = Vec::new(alloc);
    words.push(String::from_str(alloc, "--book")?)?;
    words.push(String::from_str(alloc, name)?)?;
    words.push(String::from_str(alloc, "send")?)?;
    Ok(words)
}

/// Sends what waits. Returns what is known of the line after that.
fn send_waiting(rt: &HostRuntime, desk: &DeskBook, line: Link, held: &mut Option<OpenBook>) -> Link
    requires { IfSome held.old (λ book. book.conn.in_transaction ≡ false) }
    ensures ended { IfSome held.new (λ book. book.conn.in_transaction ≡ false) }
    ensures alone { ActsAlone (string_bytes desk.now.name) held.old held.new }
{
    let alloc = rt.alloc();
    let Ok(words) = send_words(alloc, desk.name.as_str()) else {
        return line;
    };
    let given = Words {
        words: words.as_slice(),
        standing: Station {
            staff: None,
            asks: Asks::Nobody,
        },
        stock: Stock::Sent(&[]),
        way: Way {
            line,
            patience: Patience::Short,
        },
    };
    let mut out: Vec<u8> = Vec::new(alloc);
    let mut err: Vec<u8> = Vec::new(alloc);
    perform_words(rt, &given, held, &mut out, &mut err).line
}

/// Serves windows at the listener by the book, until the listener fails.
///
/// Words are done one after another, each when it has come whole. A window that is silent or slow is disconnected after
/// ten seconds. If all 256 places are taken, the window that has been silent longest gives way. After a word that got no
/// reply from the server, further words are entered without being sent. The desk tries the server every three seconds
/// then, and sends what waits once it answers. So it does from its start, if an entry of the book waits. If another process asks for the book, the desk closes it, and opens it
/// again for the next word.
pub(crate) fn serve_windows(
    rt: &HostRuntime,
    listener: &TcpListener,
    server: Option<SocketAddr>,
    desk: &DeskBook,
    held: &mut Option<OpenBook>,
) -> Result<(), ShopFault>
    requires { IfSome held.old (λ book. book.conn.in_transaction ≡ false) }
    ensures ended { IfSome held.new (λ book. book.conn.in_transaction ≡ false) }
    ensures served { IsServed (string_bytes desk.now.name) desk.now.secret held.old held.new }
{
    let mut serving = Desk::new(rt, listener, server)?;
    serving.serve(rt, listener, desk, held);
    Err(ShopFault::Listen)
}
