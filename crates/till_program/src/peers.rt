//! A connection of a window: an inbox, then an outbox, then it is gone.

ghost use Rattle.std.specs.Prelude.{◌≡◌, ◌≢◌, false, string_bytes, IfSome};
ghost use Rattle.till_program.specs.Serving.{Handles};

use crate::fault::NoFrame;
use crate::handling::{DeskBook, Handled, handle, refused};
use crate::opening::OpenBook;
use std::alloc::Global;
use std::io::{ErrorKind, Read, Write};
use std::net::{Shutdown, TcpStream};
use std::time::Duration;
use till_cashier::Link;

/// How many bytes an inbox has at most: a frame with the longest line and the longest file, and one more.
const MOST_READ: usize = 131_125;

/// How many pieces are read or written of a connection before the others have their turn.
const MOST_PIECES: u32 = 64;

/// For how many seconds a window is waited for.
const PATIENCE: u64 = 10;

/// For how many seconds a window is waited for that has its reply.
const LEAVING: u64 = 1;

/// What a connection is about.
#[derive(Clone, Copy)]
enum Phase {
    /// The window sends its word.
    Asks,
    /// The window gets its reply. So many bytes of it are sent.
    Gets(usize),
    /// The window has its reply. What it still sends is read and dropped. Closing a socket with unread bytes would reset
    /// the connection, and the reply might be lost.
    Leaves,
    Gone,
}

/// A connection of a window.
#[derive(Drop)]
pub(crate) struct Peer {
    /// Its number among all that were accepted.
    pub(crate) token: usize,
    stream: TcpStream,
    inbox: Vec<u8>,
    outbox: Vec<u8>,
    phase: Phase,
    /// Whether the connection can go on without waiting, as far as is known.
    pub(crate) is_ready: bool,
    /// When the window came, or its reply was made, or it had its reply.
    since: Duration,
}

impl Peer {
    pub(crate) fn new(alloc: Global, token: usize, stream: TcpStream, now: Duration) -> Peer {
        Peer {
            token,
            stream,
            inbox: Vec::new(alloc),
            outbox: Vec::new(alloc),
            phase: Phase::Asks,
            is_ready: true,
            since: now,
        }
    }

    pub(crate) fn is_gone(&self) -> bool {
        matches!(self.phase, Phase::Gone)
    }

    /// Returns since when the window hasn't sent its word, if it hasn't.
    pub(crate) fn asks_since(&self) -> Option<Duration> {
        match self.phase {
            Phase::Asks => Some(self.since),
            Phase::Gets(_) | Phase::Leaves | Phase::Gone => None,
        }
    }

    /// Returns when the window's time is up.
    pub(crate) fn deadline(&self) -> Duration {
        match self.phase {
            Phase::Asks | Phase::Gets(_) => self
                .since
                .saturating_add(Duration::from_secs(PATIENCE)),
            Phase::Leaves => self.since.saturating_add(Duration::from_secs(LEAVING)),
            Phase::Gone => Duration::ZERO,
        }
    }

    /// Drops the connection without waiting for the window.
    pub(crate) fn let_go(&mut self) {
        self.phase = Phase::Gone;
    }

    /// Drops the connection if the window's time is up. A window that didn't send its word whole gets that as its reply.
    pub(crate) fn expire(&mut self, alloc: Global, now: Duration)
        ensures { self.old.phase ≢ Phase.Asks → self.new.phase ≢ Phase.Asks }
    {
        if self.is_ready || now < self.deadline() {
            return;
        }
        if let Phase::Asks = self.phase {
            self.refuse(alloc, NoFrame::Short, now);
            self.write(now);
        }
        self.phase = Phase::Gone;
    }

    /// Begins to reply.
    fn reply(&mut self, text: Vec<u8>, now: Duration)
        ensures inbox { self.new.inbox ≡ self.old.inbox }
        ensures asked { self.new.phase ≢ Phase.Asks }
    {
        self.outbox = text;
        self.phase = Phase::Gets(0);
        self.since = now;
    }

    /// Begins to reply that the bytes are no word.
    fn refuse(&mut self, alloc: Global, fault: NoFrame, now: Duration)
        ensures inbox { self.new.inbox ≡ self.old.inbox }
        ensures asked { self.new.phase ≢ Phase.Asks }
    {
        match refused(alloc, fault) {
            Ok(text) => self.reply(text, now),
            Err(_) => self.phase = Phase::Gone,
        }
    }

    /// Reads what has come. Returns whether the window goes on: it isn't gone, and may have sent a whole word.
    fn read(&mut self, alloc: Global, now: Duration) -> bool {
        let mut reader = &self.stream;
        let mut piece = [0u8; 4096];
        match reader.read(&mut piece) {
            Ok(0) => {
                self.refuse(alloc, NoFrame::Short, now);
                false
            }
            Ok(count) => {
                let read = piece.get(..count).unwrap_or(&[]);
                let is_kept = self.inbox.len() < MOST_READ
                    && self.inbox.extend_from_slice(read).is_ok();
                if !is_kept {
                    self.phase = Phase::Gone;
                }
                is_kept
            }
            Err(error) if error.kind() == ErrorKind::WouldBlock => {
                self.is_ready = false;
                false
            }
            Err(error) if error.kind() == ErrorKind::Interrupted => false,
            Err(_) => {
                self.phase = Phase::Gone;
                false
            }
        }
    }

    /// Does the word in the inbox, if it has come whole.
    fn perform(
        &mut self,
        rt: &HostRuntime,
        desk: &DeskBook,
        now: Duration,
        line: &mut Link,
        held: &mut Option<OpenBook>,
    )
        requires { IfSome held.old (λ book. book.conn.in_transaction ≡ false) }
        ensures ended { IfSome held.new (λ book. book.conn.in_transaction ≡ false) }
        ensures inbox { self.new.inbox ≡ self.old.inbox }
        ensures handled { Handles (string_bytes desk.now.name) desk.now.secret self.old.inbox.items held.old held.new }
        ensures asks { self.new.phase ≡ Phase.Asks → held.new ≡ held.old }
    {
        match handle(rt, desk, self.inbox.as_slice(), *line, held) {
            Ok(Handled { reply, line: after }) => {
                *line = after;
                if let Some(text) = reply {
                    self.reply(text, now);
                }
            }
            Err(_) => self.phase = Phase::Gone,
        }
    }

    /// Writes what goes of the reply.
    fn write(&mut self, now: Duration)
        ensures inbox { self.new.inbox ≡ self.old.inbox }
        ensures asked { self.old.phase ≢ Phase.Asks → self.new.phase ≢ Phase.Asks }
    {
        let Phase::Gets(sent) = self.phase else {
            return;
        };
        let mut writer = &self.stream;
        let rest = self.outbox.as_slice().get(sent..).unwrap_or(&[]);
        if rest.is_empty() {
            self.since = now;
            self.phase = match self.stream.shutdown(Shutdown::Write) {
                Ok(()) => Phase::Leaves,
                Err(_) => Phase::Gone,
            };
            return;
        }
        match writer.write(rest) {
            Ok(count) => self.phase = Phase::Gets(sent.saturating_add(count)),
            Err(error) if error.kind() == ErrorKind::WouldBlock => self.is_ready = false,
            Err(error) if error.kind() == ErrorKind::Interrupted => {}
            Err(_) => self.phase = Phase::Gone,
        }
    }

    /// Reads and drops what the window still sends.
    fn leave(&mut self)
        ensures inbox { self.new.inbox ≡ self.old.inbox }
        ensures asked { self.old.phase ≢ Phase.Asks → self.new.phase ≢ Phase.Asks }
    {
        let mut reader = &self.stream;
        let mut rest = [0u8; 4096];
        match reader.read(&mut rest) {
            Ok(0) => self.phase = Phase::Gone,
            Ok(_) => {}
            Err(error) if error.kind() == ErrorKind::WouldBlock => self.is_ready = false,
            Err(error) if error.kind() == ErrorKind::Interrupted => {}
            Err(_) => self.phase = Phase::Gone,
        }
    }

    /// Takes one turn: goes on as far as the window's bytes reach. At most one word is done, and none if the window had a
    /// reply before.
    pub(crate) fn turn(
        &mut self,
        rt: &HostRuntime,
        desk: &DeskBook,
        now: Duration,
        line: &mut Link,
        held: &mut Option<OpenBook>,
    )
        requires { IfSome held.old (λ book. book.conn.in_transaction ≡ false) }
        ensures ended { IfSome held.new (λ book. book.conn.in_transaction ≡ false) }
        ensures handled { Handles (string_bytes desk.now.name) desk.now.secret self.new.inbox.items held.old held.new }
        ensures asks { self.new.phase ≡ Phase.Asks → held.new ≡ held.old }
        ensures once { self.old.phase ≢ Phase.Asks → held.new ≡ held.old }
        ensures asked { self.old.phase ≢ Phase.Asks → self.new.phase ≢ Phase.Asks }
    {
        'pieces: for _ in 0..MOST_PIECES {
            if !self.is_ready {
                return;
            }
            match self.phase {
                Phase::Asks => {
                    if self.read(rt.alloc(), now) {
                        self.perform(rt, desk, now, line, held);
                    }
                }
                Phase::Gets(_) => self.write(now),
                Phase::Leaves => self.leave(),
                Phase::Gone => return,
            }
        }
    }
}
