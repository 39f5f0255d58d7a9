//! How a word may use the line to the server, and for how long a prompt takes the line for down.

use std::time::Duration;
use till_cashier::Link;

/// For how many seconds a prompt takes a line for down after a word that got no reply.
const REST: u64 = 60;

/// For how long a server is waited for.
#[derive(Clone, Copy, Debug, PartialEq, Eq)]
pub enum Patience {
    /// A connection is waited for 10 seconds and a reply 40, which is longer than the server waits for a peer.
    Long,
    /// A connection is waited for 2 seconds and a reply 5, since other windows wait meanwhile.
    Short,
    /// Each is waited for a second, since nothing is lost without the reply.
    Brief,
    /// Each is waited for a quarter of a second, since somebody waits who has an answer already.
    Least,
}

/// How a word may use the line to the server.
#[derive(Clone, Copy, Debug)]
pub struct Way {
    pub line: Link,
    pub patience: Patience,
}

impl Way {
    /// Returns the way over a line that may be open, with all patience.
    pub(crate) fn open() -> Way {
        Way {
            line: Link::Open,
            patience: Patience::Long,
        }
    }
}

/// Since when a prompt takes the line for down, if it does.
#[derive(Clone, Copy)]
pub(crate) struct LineNotes {
    since: Option<Duration>,
}

impl LineNotes {
    /// Nothing is known of the line.
    pub(crate) fn new() -> LineNotes {
        LineNotes { since: None }
    }

    /// Returns what is known of the line at that time.
    pub(crate) fn at(&self, now: Duration) -> Link {
        match self.since {
            Some(since) if now < since.saturating_add(Duration::from_secs(REST)) => Link::Down,
            Some(_) | None => Link::Open,
        }
    }

    /// Notes what a word showed of the line at that time.
    pub(crate) fn note(&mut self, before: Link, after: Link, now: Duration) {
        match (before, after) {
            (_, Link::Open) => self.since = None,
            (Link::Open, Link::Down) => self.since = Some(now),
            (Link::Down, Link::Down) => {}
        }
    }
}
