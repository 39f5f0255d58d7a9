//! The line between a till and the server. Each connection has one message, which comes whole, cut, late, or never.
ghost use Rattle.std.specs.Prelude.{⊤, IfOk};
ghost use Rattle.std.specs.Counts.{IsPrefixLen};

use std::alloc::{AllocError, Global};
use std::cell::RefCell;
use std::io::{self, ErrorKind, Read, Write};
use std::marker::Model;
use std::mem;
use till_work::Server;

/// The server at the other end of the line.
pub trait Counter: Drop {
    /// Puts the reply to these bytes, which come over a connection of their own, into `told`.
    fn answer(&mut self, sent: &[u8], told: &mut Vec<u8>);

    /// Returns how often the server was stopped.
    fn stops(&self) -> u32;
}

/// After how many bytes a connection breaks.
#[derive(Clone, Copy)]
pub enum Cut {
    /// The connection doesn't break.
    Never,
    /// After so many bytes that the till sends.
    Sent(u64),
    /// After so many bytes of the reply.
    Told(u64),
}

/// The reply of a server over another file, which doesn't know who asks.
const NOBODY: &[u8] = b"HTTP/1.1 403 Forbidden\r\ncontent-type: application/json\r\n\
    content-length: 24\r\n\r\n{\"refused\":\"no_counter\"}";

/// Cuts the bytes after so many, if there are more. Returns the number of cuts.
fn cut_off(bytes: &mut Vec<u8>, most: u64) -> u32 {
    match usize::try_from(most) {
        Ok(most) if most < bytes.len() => {
            bytes.truncate(most);
            1
        }
        _ => 0,
    }
}

/// Copies the bytes after the first `read`, as many as have room in `buf`. Returns how many.
fn given(bytes: &[u8], read: usize, buf: &mut [u8]) -> usize
    ensures { IsPrefixLen result buf.new }
{
    let rest = &bytes[read.min(bytes.len())..];
    let n = buf.len().min(rest.len());
    buf[..n].copy_from_slice(&rest[..n]);
    n
}

/// Sends the message to the server over a connection that breaks at the cut. Returns the number of cuts.
fn ask_cut<C: Counter>(
    counter: &mut C,
    message: &mut Vec<u8>,
    told: &mut Vec<u8>,
    cut: Cut,
) -> u32 {
    let sent = match cut {
        Cut::Sent(most) => cut_off(message, most),
        _ => 0,
    };
    counter.answer(message.as_slice(), told);
    match cut {
        Cut::Told(most) => cut_off(told, most),
        _ => sent,
    }
}

/// Sends the message to the server over a connection that doesn't break. Sends it once more if the server is stopped.
fn ask_whole<C: Counter>(counter: &mut C, message: &[u8], told: &mut Vec<u8>) {
    for _ in 0..2 {
        told.clear();
        counter.answer(message, told);
        if !told.as_slice().starts_with(b"HTTP/1.1 503") {
            return;
        }
    }
}

/// Sends each of the messages to the server. Nobody waits for the replies.
fn ask_all<C: Counter>(counter: &mut C, messages: &[Vec<u8>], told: &mut Vec<u8>) {
    for message in messages {
        ask_whole(counter, message.as_slice(), told);
    }
}

/// A line that has one connection at a time.
#[derive(Drop)]
pub struct Wire<C: Counter> {
    alloc: Global,
    counter: C,
    /// Whether no server is there.
    pub is_down: bool,
    /// Whether the server has another file.
    pub is_other: bool,
    /// Whether the next message is held back, and its connection breaks.
    pub keeps: bool,
    /// Where the next connection breaks whose message isn't held back.
    cut: Cut,
    /// How many connections were cut, and how many messages came once more.
    breaks: u32,
    /// Whether each message comes once more after each later word.
    repeats: bool,
    sent: Vec<u8>,
    told: Vec<u8>,
    /// How many bytes of the reply the till has read. None until the message has come.
    read: Option<usize>,
    kept: Vec<Vec<u8>>,
    come: Vec<Vec<u8>>,
}

/// The model is trivial, as for `Days`.
impl<C: Counter> Model for Wire<C> {
    ghost use Rattle.std.specs.Prelude.{⊤};

    ghost Value = { ⊤ };

    ghost view = { λ _. tt };
}

impl<C: Counter> Wire<C> {
    pub fn new(alloc: Global, counter: C, repeats: bool) -> Wire<C> {
        Wire {
            alloc,
            counter,
            is_down: false,
            is_other: false,
            keeps: false,
            cut: Cut::Never,
            breaks: 0,
            repeats,
            sent: Vec::new(alloc),
            told: Vec::new(alloc),
            read: None,
            kept: Vec::new(alloc),
            come: Vec::new(alloc),
        }
    }

    /// Returns how often a connection was cut, a message came once more, or the server was stopped.
    pub fn stops(&self) -> u32 {
        self.breaks.saturating_add(self.counter.stops())
    }

    /// Sets where the next connection breaks whose message isn't held back. Returns how many messages have come that
    /// will come once more.
    pub fn cuts_next(&mut self, cut: Cut) -> usize {
        self.cut = cut;
        self.come.len()
    }

    fn begin(&mut self) -> bool {
        self.sent.clear();
        self.told.clear();
        self.read = None;
        !self.is_down
    }

    /// Takes bytes that the till sends.
    fn takes(&mut self, bytes: &[u8]) -> Result<(), AllocError> {
        self.sent.extend_from_slice(bytes)
    }

    /// Returns the message that was sent, and forgets it.
    fn taken(&mut self) -> Vec<u8> {
        mem::replace(&mut self.sent, Vec::new(self.alloc))
    }

    /// Sends the message to the server, and keeps the message if it will come once more.
    fn is_answered(&mut self) -> io::Result<()> {
        let cut = mem::replace(&mut self.cut, Cut::Never);
        let cuts = ask_cut(&mut self.counter, &mut self.sent, &mut self.told, cut);
        self.breaks = self.breaks.saturating_add(cuts);
        if self.repeats {
            let message = self.taken();
            self.come.push(message)?;
        }
        Ok(())
    }

    /// Sends the message to the server, or holds it back.
    fn comes(&mut self) -> io::Result<()> {
        self.read = Some(0);
        if self.is_other {
            self.told.extend_from_slice(NOBODY)?;
            return Ok(());
        }
        if mem::replace(&mut self.keeps, false) {
            let message = self.taken();
            self.kept.push(message)?;
            return Ok(());
        }
        self.is_answered()
    }

    /// Reads some bytes of the reply. Reads none only at the end, or if `buf` is empty.
    fn tell(&mut self, buf: &mut [u8]) -> io::Result<usize>
        ensures { IfOk result (λ n. IsPrefixLen n buf.new) }
    {
        if self.read.is_none() {
            self.comes()?;
        }
        let read = self.read.unwrap_or(0);
        let n = given(self.told.as_slice(), read, buf);
        self.read = Some(read.saturating_add(n));
        Ok(n)
    }

    /// Sends somebody else's message, and returns the reply.
    pub fn ask(&mut self, message: &[u8]) -> &[u8] {
        ask_whole(&mut self.counter, message, &mut self.told);
        self.told.as_slice()
    }

    /// Sends the messages that were held back.
    pub fn come_late(&mut self) {
        ask_all(&mut self.counter, self.kept.as_slice(), &mut self.told);
        self.kept.clear();
    }

    /// Sends so many of the first messages once more.
    pub fn come_again(&mut self, count: usize) {
        let count = count.min(self.come.len());
        let more = u32::try_from(count).unwrap_or(u32::MAX);
        self.breaks = self.breaks.saturating_add(more);
        let messages = &self.come[..count];
        ask_all(&mut self.counter, messages, &mut self.told);
    }
}

/// The till's way to the line, and one end of a connection.
#[derive(Drop)]
pub struct WireEnd<'x, C: Counter> {
    pub wire: &'x RefCell<Wire<C>>,
}

fn broken() -> io::Error {
    io::Error::from(ErrorKind::ConnectionReset)
}

impl<'x, C: Counter> Server for WireEnd<'x, C> {
    type Reader = WireEnd<'x, C>;

    type Writer = WireEnd<'x, C>;

    // no clause can say what a cell holds
    ghost opens = { λ _ _ _. ⊤ };

    ghost refuses = { λ _. ⊤ };

    fn connect(&self) -> io::Result<(WireEnd<'x, C>, WireEnd<'x, C>)> {
        let is_there = match self.wire.try_borrow_mut() {
            Ok(mut wire) => wire.begin(),
            Err(_) => false,
        };
        if is_there {
            Ok((WireEnd { wire: self.wire }, WireEnd { wire: self.wire }))
        } else {
            Err(broken())
        }
    }
}

impl<C: Counter> Read for WireEnd<'_, C> {
    fn read(&mut self, buf: &mut [u8]) -> io::Result<usize> {
        match self.wire.try_borrow_mut() {
            Ok(mut wire) => wire.tell(buf),
            Err(_) => Err(broken()),
        }
    }
}

impl<C: Counter> Write for WireEnd<'_, C> {
    fn write(&mut self, buf: &[u8]) -> io::Result<usize> {
        match self.wire.try_borrow_mut() {
            Ok(mut wire) => match wire.takes(buf) {
                Ok(()) => Ok(buf.len()),
                Err(_) => Err(io::Error::from(ErrorKind::OutOfMemory)),
            },
            Err(_) => Err(broken()),
        }
    }

    fn flush(&mut self) -> io::Result<()> {
        Ok(())
    }
}
