//! Connections over a socket, which a chain serves side by side, each request when it has come whole.
ghost use Rattle.std.specs.Prelude.{◌≡◌, ◌⊎◌, true, List};
ghost use Rattle.counter_http.specs.Exchanges.{Exchange, RunsOver};

use crate::peers::{Peer, time};
use chain_engine::Chain;
use counter_http::{Connection, Switchboard};
use mio::unix::SourceFd;
use mio::{Events, Interest, Poll, Token};
use shop_types::OfficeWords;
use sqlite::Alter;
use std::alloc::AllocGlobal;
use std::io::{self, ErrorKind};
use std::net::{Net, TcpListener, TcpStream};
use std::os::fd::AsRawFd;
use std::time::{Clock, Duration};

/// How many requests are answered of one connection, or of one input.
pub(crate) const MOST_REQUESTS: u32 = 1000;

/// How many connections have a place; the rest wait.
const MOST_OPEN: usize = 256;

/// How many sockets there are at most, including sockets with their last reply and sockets that hold no place. A
/// program may mostly have 1,024 files open.
const MOST_SOCKETS: usize = 768;

/// How many connections are accepted before the others have their turn.
const MOST_ARRIVALS: u32 = 16;

/// The listener's own token. The connections have the tokens after it, in the order in which they come.
const LISTENER: usize = 0;

/// What serving needs beside the chain.
#[derive(Drop)]
struct Server {
    poll: Poll,
    events: Events,
    board: Switchboard,
    /// The connections that are open, in the order in which they came.
    peers: Vec<Peer>,
    /// The connection that came last, if there is no place for it yet.
    waiting: Option<TcpStream>,
    /// How many connections were accepted.
    accepted: u32,
    /// How many connections are to be accepted.
    connections: u32,
    /// Whether the listener may have a connection without waiting.
    may_accept: bool,
    /// Whether all connections that had come before the serving began were answered as far as their bytes reached.
    has_caught_up: bool,
    /// When the server last looked who is ready.
    now: Duration,
    patience: Duration,
}

fn register(poll: &Poll, fd: i32, token: usize, interests: Interest) -> io::Result<()> {
    poll.registry()
        .register(&mut SourceFd(&fd), Token(token), interests)
}

impl Server {
    fn new<R: Net + Clock + AllocGlobal>(
        rt: &R,
        listener: &TcpListener,
        connections: u32,
        patience: Duration,
    ) -> io::Result<Server> {
        let alloc = rt.alloc();
        let poll = Poll::new(rt)?;
        listener.set_nonblocking(true)?;
        register(&poll, listener.as_raw_fd(), LISTENER, Interest::READABLE)?;
        let now = rt.monotonic()?;
        let events = Events::with_capacity(alloc, MOST_OPEN)?;
        let board = Switchboard::new(alloc)?;
        Ok(Server {
            poll,
            events,
            board,
            peers: Vec::new(alloc),
            waiting: None,
            accepted: 0,
            connections,
            may_accept: true,
            has_caught_up: false,
            now,
            patience,
        })
    }

    /// Opens a connection. Drops it if there is no memory for it, or if it is gone already.
    fn open<R: Clock + AllocGlobal>(&mut self, rt: &R, stream: TcpStream) -> io::Result<()> {
        stream.set_nonblocking(true)?;
        // A reply goes out in two pieces. The second doesn't wait until the peer acknowledges the first.
        stream.set_nodelay(true)?;
        let token = self.accepted as usize;
        let both = Interest::READABLE | Interest::WRITABLE;
        register(&self.poll, stream.as_raw_fd(), token, both)?;
        let connection = Connection::new(rt.alloc(), MOST_REQUESTS)?;
        let now = time(rt, self.now);
        self.peers.push(Peer::new(token, stream, connection, now))?;
        Ok(())
    }

    /// Reports whether one more connection may be accepted, if one waits.
    fn has_room(&self) -> bool {
        self.may_accept && self.accepted < self.connections && self.waiting.is_none()
    }

    /// Reports whether the next connection waits for an earlier one that can still go on. It does until all connections
    /// that had come before the serving began are accepted.
    fn is_held(&self) -> bool {
        !self.has_caught_up && self.peers.iter().any(|peer| peer.is_busy())
    }

    /// Returns the token of the peer to disconnect first for one that waits, if any may be disconnected.
    fn first_to_yield(&self, with_known: bool) -> Option<usize> {
        let mut first: Option<&Peer> = None;
        for peer in &self.peers {
            if peer.may_yield(self.now) && (with_known || !peer.is_known()) {
                first = match first {
                    Some(other) if other.rank() <= peer.rank() => Some(other),
                    Some(_) | None => Some(peer),
                };
            }
        }
        first.map(|peer| peer.token)
    }

    /// Disconnects a peer for one that waits. Reports whether it did.
    fn make_place(&mut self, with_known: bool) -> bool {
        for _ in 0..MOST_SOCKETS {
            let Some(token) = self.first_to_yield(with_known) else {
                return false;
            };
            let now = self.now;
            for peer in &mut self.peers {
                if peer.token == token && peer.yields(now) {
                    return true;
                }
            }
        }
        false
    }

    /// Reports whether there is a place for one more. If all are taken, tries to disconnect a peer first. A peer that
    /// isn't known and is within a request isn't disconnected, and keeps nobody else out.
    fn has_place(&mut self) -> bool {
        let served = self.peers.iter().filter(|peer| peer.is_served()).count();
        if served < MOST_OPEN {
            return true;
        }
        let known = self.peers.iter().filter(|peer| peer.is_known()).count();
        let is_full = known >= MOST_OPEN || self.peers.len() >= MOST_SOCKETS;
        self.make_place(is_full) || !is_full
    }

    /// Drops the peer that began to be disconnected first. Reports whether there was one.
    fn let_one_go(&mut self) -> bool {
        let Some(first) = self
            .peers
            .iter()
            .filter_map(|peer| peer.leaves_since())
            .min()
        else {
            return false;
        };
        for peer in &mut self.peers {
            if peer.leaves_since() == Some(first) {
                peer.let_go();
                break;
            }
        }
        self.peers.retain(|peer| !peer.is_gone());
        true
    }

    /// Opens the connection that waits, if there is a place or a peer can be disconnected for it.
    fn seat<R: Clock + AllocGlobal>(&mut self, rt: &R) {
        if self.waiting.is_none() || self.is_held() || !self.has_place() {
            return;
        }
        if self.peers.len() >= MOST_SOCKETS {
            self.let_one_go();
        }
        if let Some(stream) = self.waiting.take() {
            let _ = self.open(rt, stream);
        }
    }

    /// Accepts one connection, if one has come, no other waits for a place, and no earlier one holds it. Reports
    /// whether it did.
    fn accept<R: Clock + AllocGlobal>(
        &mut self,
        rt: &R,
        listener: &TcpListener,
    ) -> io::Result<bool> {
        self.seat(rt);
        if !self.has_room() || self.is_held() {
            return Ok(false);
        }
        match listener.accept() {
            Ok((stream, _)) => {
                self.accepted = self.accepted.saturating_add(1);
                self.waiting = Some(stream);
                self.seat(rt);
                Ok(true)
            }
            Err(e) => match e.kind() {
                ErrorKind::WouldBlock => {
                    self.may_accept = false;
                    self.has_caught_up = true;
                    Ok(false)
                }
                ErrorKind::Interrupted | ErrorKind::ConnectionAborted => Ok(false),
                // The system may have no more files for this program.
                _ if self.let_one_go() => Ok(false),
                _ => Err(e),
            },
        }
    }

    /// Reports whether something can be done without waiting.
    fn is_busy(&self) -> bool {
        self.has_room() || self.peers.iter().any(|peer| peer.is_ready)
    }

    /// Reports whether all connections are served.
    fn is_done(&self) -> bool {
        self.accepted >= self.connections && self.peers.is_empty() && self.waiting.is_none()
    }

    /// Stops accepting connections, and begins to disconnect the open ones.
    fn close<R: Clock>(&mut self, rt: &R) {
        self.connections = self.accepted;
        self.waiting = None;
        for peer in &mut self.peers {
            peer.dismiss(time(rt, self.now));
        }
    }

    /// Returns for how long nothing need happen: until a peer's time is up, or until a peer may be disconnected for one
    /// that waits.
    fn longest_wait(&self) -> Duration {
        let mut wait = self.patience;
        for peer in &self.peers {
            wait = wait.min(peer.deadline(self.patience).saturating_sub(self.now));
            if let Some(at) = peer.yields_at()
                && self.waiting.is_some()
            {
                wait = wait.min(at.saturating_sub(self.now));
            }
        }
        wait
    }

    /// Notes who is ready.
    fn note(&mut self) {
        for event in &self.events {
            let Token(token) = event.token();
            if token == LISTENER {
                self.may_accept = true;
            }
            for peer in &mut self.peers {
                if peer.token == token {
                    peer.is_ready = true;
                }
            }
        }
    }

    /// Waits until something is ready, unless something is already. Returns false if the poll failed.
    fn wait<R: Clock>(&mut self, rt: &R) -> bool {
        let wait = if self.is_busy() {
            Duration::ZERO
        } else {
            self.longest_wait()
        };
        if self.poll.poll(&mut self.events, Some(wait)).is_err() {
            return false;
        }
        self.now = time(rt, self.now);
        self.note();
        true
    }

    /// Gives each peer that is ready its turn. Disconnects each peer that can't go on and whose time is up, and forgets
    /// the peers that are gone.
    fn turns<R: Clock + AllocGlobal, O: OfficeWords, S: Alter>(
        &mut self,
        rt: &R,
        chain: &mut Chain<S>,
        words: &O,
    )
        ensures { (exchanges : List Exchange) × RunsOver S.Store (O.meaning words.now) chain.old chain.new exchanges }
    {
        'peers: for peer in &mut self.peers {
            if peer.is_ready {
                peer.turn(rt, chain, &self.board, words);
                peer.expire(time(rt, self.now), self.patience);
            } else {
                peer.expire(self.now, self.patience);
            }
        }
        self.peers.retain(|peer| !peer.is_gone());
    }

    /// Accepts some connections. A connection that had come before the serving began has its first turn before the next
    /// is accepted. Returns false if the listener failed.
    fn arrivals<R: Clock + AllocGlobal, O: OfficeWords, S: Alter>(
        &mut self,
        rt: &R,
        listener: &TcpListener,
        chain: &mut Chain<S>,
        words: &O,
    ) -> bool
        ensures { (exchanges : List Exchange) × RunsOver S.Store (O.meaning words.now) chain.old chain.new exchanges }
    {
        'arrivals: for _ in 0..MOST_ARRIVALS {
            match self.accept(rt, listener) {
                Ok(true) if self.has_caught_up => {}
                Ok(true) => self.turns(rt, chain, words),
                Ok(false) => return true,
                Err(_) => return false,
            }
        }
        true
    }

    /// Serves until all connections are served, the listener fails, or the store fails.
    fn serve<R: Clock + AllocGlobal, O: OfficeWords, S: Alter>(
        &mut self,
        rt: &R,
        listener: &TcpListener,
        chain: &mut Chain<S>,
        words: &O,
    ) -> u8
        ensures ran { (exchanges : List Exchange)
            × RunsOver S.Store (O.meaning words.now) chain.old chain.new exchanges }
        ensures status { (result ≡ 0) ⊎ (result ≡ 3) }
        ensures failed { chain.new.is_failed ≡ true → result ≡ 3 }
    {
        'rounds: for _ in 0..u64::MAX {
            if chain.is_failed() {
                self.close(rt);
            }
            if self.is_done() {
                return if chain.is_failed() { 3 } else { 0 };
            }
            if !self.arrivals(rt, listener, chain, words) || !self.wait(rt) {
                return 3;
            }
            self.turns(rt, chain, words);
        }
        3
    }
}

/// Serves so many connections by the chain, side by side in 256 places, each with at most 1,000 requests. Returns 0 if
/// all were served. Returns 3 if serving couldn't begin, no more connections could be accepted, or the store failed.
///
/// If all places are taken and one more connection waits, the server disconnects another for it. It chooses the
/// connection that was silent longest between two requests, for at least a quarter of a second. Unknown connections go
/// first: they have asked nothing yet, or their last request came without a token that somebody has. A connection whose
/// last request came without such a token may be disconnected at once. An unknown connection within a request isn't
/// disconnected, and keeps nobody else out, up to 768 sockets in all.
///
/// Requests are answered one after another, each when it has come whole. A connection's turn ends after 16 requests, or
/// with the request at which it has taken a millisecond by the clock of `rt`. Then the others have their turns. If the
/// bytes of all connections came before the serving began, each connection is answered to its end, in the order in
/// which they came. A fault of a connection ends only that connection. A peer is disconnected if, by the same clock, it
/// sends no whole request or takes nothing of a reply for as long as `patience`.
pub fn serve_listener<R: Net + Clock + AllocGlobal, O: OfficeWords, S: Alter>(
    rt: &R,
    listener: &TcpListener,
    chain: &mut Chain<S>,
    words: &O,
    connections: u32,
    patience: Duration,
) -> u8
    ensures ran { (exchanges : List Exchange) × RunsOver S.Store (O.meaning words.now) chain.old chain.new exchanges }
    ensures status { (result ≡ 0) ⊎ (result ≡ 3) }
    ensures failed { chain.new.is_failed ≡ true → result ≡ 3 }
{
    let Ok(mut server) = Server::new(rt, listener, connections, patience) else {
        return 3;
    };
    let status = server.serve(rt, listener, chain, words);
    drop(server);
    let _ = listener.set_nonblocking(false);
    status
}
