//! A desk finds out by itself whether the server answers again.

use mio::net::TcpStream;
use mio::{Interest, Poll, Token};
use std::net::SocketAddr;
use std::time::Duration;

/// The token of a connection that is tried.
pub(crate) const PROBE: usize = usize::MAX;

/// How many seconds the desk waits between two tries.
const PAUSE: u64 = 3;

/// How many seconds it waits after the server took a connection and didn't answer.
const LONG_PAUSE: u64 = 30;

/// A connection to the server that is tried without waiting for it.
#[derive(Drop)]
pub(crate) struct Probe {
    stream: Option<TcpStream>,
    /// When the next try begins, or the present one ends.
    next: Duration,
}

impl Probe {
    pub(crate) fn new() -> Probe {
        Probe {
            stream: None,
            next: Duration::ZERO,
        }
    }

    /// Returns when the probe has something to do.
    pub(crate) fn deadline(&self) -> Duration {
        self.next
    }

    /// Begins a try if its time has come, and ends one that takes too long.
    pub(crate) fn go_on(
        &mut self,
        rt: &HostRuntime,
        poll: &Poll,
        server: Option<SocketAddr>,
        now: Duration,
    ) {
        if now < self.next {
            return;
        }
        self.stream = None;
        self.next = now.saturating_add(Duration::from_secs(PAUSE));
        let Some(server) = server else {
            return;
        };
        if let Ok(mut stream) = TcpStream::connect(rt, server) {
            let is_registered = poll
                .registry()
                .register(&mut stream, Token(PROBE), Interest::WRITABLE)
                .is_ok();
            if is_registered {
                self.stream = Some(stream);
            }
        }
    }

    /// Ends the try that is under way. Returns whether the server took the connection.
    pub(crate) fn is_taken(&mut self, now: Duration) -> bool {
        let is_taken = match &self.stream {
            Some(stream) => matches!(stream.take_error(), Ok(None)) && stream.peer_addr().is_ok(),
            None => false,
        };
        self.stream = None;
        self.next = now.saturating_add(Duration::from_secs(PAUSE));
        is_taken
    }

    /// Puts the next try off, since the server took a connection and didn't answer.
    pub(crate) fn put_off(&mut self, now: Duration) {
        self.next = now.saturating_add(Duration::from_secs(LONG_PAUSE));
    }
}
