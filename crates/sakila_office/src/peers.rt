//! An open connection, and how long the server waits for its peer.
ghost use Rattle.std.specs.Prelude.{List};
ghost use Rattle.counter_http.specs.Exchanges.{Exchange, RunsOver};

use chain_engine::Chain;
use counter_http::{Connection, Phase, Switchboard, TurnFault};
use shop_types::OfficeWords;
use sqlite::Alter;
use std::alloc::AllocGlobal;
use std::io::{self, ErrorKind, Read, Write};
use std::net::{Shutdown, TcpStream};
use std::time::{Clock, Duration};

/// How many requests of a connection are answered before the others have their turn.
const MOST_IN_A_TURN: u32 = 16;

/// After how many milliseconds a connection's turn ends: the other connections have their turns before its next
/// request is answered.
const LONGEST_TURN: u64 = 1;

/// How many pieces that a peer still sends after its last reply are read and dropped.
const MOST_DROPPED: u32 = 64;

/// After how many milliseconds of silence between two requests a connection may be disconnected for one that waits.
const LONG_SILENCE: u64 = 250;

/// How each reply begins. A reply to a caller without a token that somebody has begins with `FORBIDDEN`.
const REPLY: &[u8] = b"HTTP/1.1 ";

const FORBIDDEN: &[u8] = b"HTTP/1.1 403 ";

/// Who a peer is, by its last reply.
#[derive(Clone, Copy, PartialEq, Eq)]
enum Asker {
    /// Its last request came without a token that somebody has.
    Stranger,
    /// It has asked nothing yet.
    Unheard,
    Known,
}

/// Whether a peer is answered, is being disconnected, or is gone.
#[derive(Clone, Copy)]
enum Presence {
    /// It is answered.
    Served,
    /// It has its last reply. At most so many pieces that it still sends are read and dropped. Closing a socket with
    /// unread bytes would reset the connection, and the reply might be lost.
    Leaving(u32),
    Gone,
}

/// A socket to write to. Notes whether its peer has taken something, and who the peer is by its last reply.
#[derive(Drop)]
struct Outlet<'s> {
    stream: &'s TcpStream,
    has_taken: bool,
    asker: Asker,
}

impl Write for Outlet<'_> {
    fn write(&mut self, buf: &[u8]) -> io::Result<usize> {
        let mut writer = self.stream;
        let taken = writer.write(buf)?;
        self.has_taken = true;
        if buf.starts_with(FORBIDDEN) {
            self.asker = Asker::Stranger;
        } else if buf.starts_with(REPLY) {
            self.asker = Asker::Known;
        }
        Ok(taken)
    }

    fn flush(&mut self) -> io::Result<()> {
        Ok(())
    }
}

/// Returns the clock's time, or `before` if the clock fails.
pub(crate) fn time<R: Clock>(rt: &R, before: Duration) -> Duration {
    rt.monotonic().unwrap_or(before)
}

/// An open connection.
#[derive(Drop)]
pub(crate) struct Peer {
    /// Its number among all that were accepted.
    pub(crate) token: usize,
    stream: TcpStream,
    connection: Connection,
    presence: Presence,
    /// Whether the connection can go on without waiting, as far as is known.
    pub(crate) is_ready: bool,
    /// Whether, at the last look, the peer had sent nothing since its last whole reply, or since it came.
    is_silent: bool,
    asker: Asker,
    /// When the peer came, was last answered, last took bytes of a reply, or began to be disconnected.
    since: Duration,
}

impl Peer {
    pub(crate) fn new(
        token: usize,
        stream: TcpStream,
        connection: Connection,
        now: Duration,
    ) -> Peer {
        Peer {
            token,
            stream,
            connection,
            presence: Presence::Served,
            is_ready: true,
            is_silent: false,
            asker: Asker::Unheard,
            since: now,
        }
    }

    pub(crate) fn is_gone(&self) -> bool {
        matches!(self.presence, Presence::Gone)
    }

    /// Reports whether the peer is still answered.
    pub(crate) fn is_served(&self) -> bool {
        matches!(self.presence, Presence::Served)
    }

    /// Reports whether the peer can go on without waiting and is still answered.
    pub(crate) fn is_busy(&self) -> bool {
        self.is_ready && self.is_served()
    }

    /// If the peer is silent between two requests, returns when it may be disconnected for one that waits. A stranger
    /// may be disconnected at once.
    pub(crate) fn yields_at(&self) -> Option<Duration> {
        if !self.is_silent || self.is_ready || !self.is_served() {
            return None;
        }
        match self.asker {
            Asker::Stranger => Some(self.since),
            Asker::Unheard | Asker::Known => {
                Some(
                    self.since
                        .saturating_add(Duration::from_millis(LONG_SILENCE)),
                )
            }
        }
    }

    /// Reports whether the peer may be disconnected now for one that waits.
    pub(crate) fn may_yield(&self, now: Duration) -> bool {
        self.yields_at().is_some_and(|at| at <= now)
    }

    /// Reports whether the peer's last request came with a token that somebody has, and the peer is still answered.
    pub(crate) fn is_known(&self) -> bool {
        self.asker == Asker::Known && self.is_served()
    }

    /// Returns the peer's place in the order in which peers are disconnected for others that wait. Peers that aren't
    /// known go first, and among equals the peer that was silent longest.
    pub(crate) fn rank(&self) -> (bool, Duration) {
        (self.is_known(), self.since)
    }

    /// Disconnects the peer for one that waits, unless it has sent more meanwhile. Reports whether it did.
    pub(crate) fn yields(&mut self, now: Duration) -> bool {
        match self.stream.peek(&mut [0u8; 1]) {
            Ok(_) => {
                self.is_ready = true;
                false
            }
            Err(_) => {
                self.begin_to_leave(now);
                true
            }
        }
    }

    /// Returns when the peer began to be disconnected, if it isn't gone yet.
    pub(crate) fn leaves_since(&self) -> Option<Duration> {
        match self.presence {
            Presence::Leaving(_) => Some(self.since),
            Presence::Served | Presence::Gone => None,
        }
    }

    /// Drops the peer without waiting for it.
    pub(crate) fn let_go(&mut self) {
        self.presence = Presence::Gone;
    }

    /// Returns when the peer's time is up. A peer that is answered gets `patience`, one that is being disconnected at
    /// most a second.
    pub(crate) fn deadline(&self, patience: Duration) -> Duration {
        let wait = match self.presence {
            Presence::Served => patience,
            Presence::Leaving(_) => Duration::from_secs(1).min(patience),
            Presence::Gone => Duration::ZERO,
        };
        self.since.saturating_add(wait)
    }

    /// Disconnects the peer if it can't go on and its time is up. For a peer that was answered, shuts down the sending
    /// side first, so that the peer sees the end.
    pub(crate) fn expire(&mut self, now: Duration, patience: Duration) {
        if !self.is_ready && now >= self.deadline(patience) {
            match self.presence {
                Presence::Served => self.begin_to_leave(now),
                Presence::Leaving(_) | Presence::Gone => self.presence = Presence::Gone,
            }
        }
    }

    /// Begins to disconnect the peer, if it is still answered.
    pub(crate) fn dismiss(&mut self, now: Duration) {
        if self.is_served() {
            self.begin_to_leave(now);
        }
    }

    fn begin_to_leave(&mut self, now: Duration) {
        self.since = now;
        self.is_ready = true;
        self.presence = match self.stream.shutdown(Shutdown::Write) {
            Ok(()) => Presence::Leaving(MOST_DROPPED),
            Err(_) => Presence::Gone,
        };
    }

    /// Reads and drops what the peer still sends.
    fn leave(&mut self, pieces: u32) {
        let mut reader = &self.stream;
        let mut rest = [0u8; 4096];
        for dropped in 0..pieces {
            match reader.read(&mut rest) {
                Ok(0) => break,
                Ok(_) => {}
                Err(e) if e.kind() == ErrorKind::WouldBlock => {
                    self.presence = Presence::Leaving(pieces - dropped);
                    self.is_ready = false;
                    return;
                }
                Err(_) => break,
            }
        }
        self.presence = Presence::Gone;
    }

    /// Answers what has come, up to the end of a turn. Returns what the connection then waits for, whether its peer has
    /// taken something, and who the peer is.
    fn answer_some<R: Clock + AllocGlobal, O: OfficeWords, S: Alter>(
        &mut self,
        rt: &R,
        chain: &mut Chain<S>,
        board: &Switchboard,
        words: &O,
    ) -> (Result<Phase, TurnFault>, bool, Asker)
        ensures { (exchanges : List Exchange) × RunsOver S.Store (O.meaning words.now) chain.old chain.new exchanges }
    {
        let mut outlet = Outlet {
            stream: &self.stream,
            has_taken: false,
            asker: self.asker,
        };
        let begun = time(rt, self.since);
        let end = begun.saturating_add(Duration::from_millis(LONGEST_TURN));
        let mut phase = Ok(Phase::Ready);
        'requests: for _ in 0..MOST_IN_A_TURN {
            phase = self.connection.advance(
                rt.alloc(),
                &mut &self.stream,
                &mut outlet,
                chain,
                board,
                words,
                1,
            );
            if !matches!(phase, Ok(Phase::Ready)) || time(rt, begun) >= end {
                break;
            }
        }
        (phase, outlet.has_taken, outlet.asker)
    }

    /// Answers what has come, and notes what the connection then waits for.
    fn answer<R: Clock + AllocGlobal, O: OfficeWords, S: Alter>(
        &mut self,
        rt: &R,
        chain: &mut Chain<S>,
        board: &Switchboard,
        words: &O,
    )
        ensures { (exchanges : List Exchange) × RunsOver S.Store (O.meaning words.now) chain.old chain.new exchanges }
    {
        let before = self.connection.replies();
        let (phase, has_taken, asker) = self.answer_some(rt, chain, board, words);
        self.asker = asker;
        let now = time(rt, self.since);
        if has_taken || self.connection.replies() != before {
            self.since = now;
        }
        self.is_silent = matches!(phase, Ok(Phase::Reads)) && self.connection.is_between();
        match phase {
            Ok(Phase::Reads | Phase::Writes) => self.is_ready = false,
            Ok(Phase::Ready) => {}
            Ok(Phase::Ended(_)) | Err(_) => self.begin_to_leave(now),
        }
    }

    /// Takes one turn: goes on as far as the peer's bytes reach, up to the end of the turn.
    pub(crate) fn turn<R: Clock + AllocGlobal, O: OfficeWords, S: Alter>(
        &mut self,
        rt: &R,
        chain: &mut Chain<S>,
        board: &Switchboard,
        words: &O,
    )
        ensures { (exchanges : List Exchange) × RunsOver S.Store (O.meaning words.now) chain.old chain.new exchanges }
    {
        match self.presence {
            Presence::Served => self.answer(rt, chain, board, words),
            Presence::Leaving(pieces) => self.leave(pieces),
            Presence::Gone => {}
        }
    }
}
