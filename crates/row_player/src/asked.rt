//! What was asked last, what came back, and what the row wants to come back.
ghost use Rattle.std.specs.Prelude.{◌≡◌, OnOk};

use crate::fault::Fault;
use crate::texts::{number, put_bytes, put_number, put_reply, says_more};
use std::alloc::Global;
use std::io::{self, Write};
use std::marker::Model;
use std::mem;

/// The first word of a line in which a till says that a refused entry was done.
const SURE: &str = "Entry ";

/// What was sent, answered or written; what was written to standard error; and how it ended: `closed 1`, or `status 2`
/// of a program or a till's words. Keeps also the first fault, and the whole row's lines about entries that a till made
/// sure of. Such a line may be printed after later words.
#[derive(Drop)]
pub struct Texts {
    pub out: Vec<u8>,
    pub err: Vec<u8>,
    end: Vec<u8>,
    sure: Vec<u8>,
    /// How many replies are in `out`, if they are put there one by one.
    replies: u32,
    /// How many bytes a connection's writer has room for in `out`.
    room: usize,
    fault: Fault,
}

/// Its texts. So the holder of a `Texts` isn't checked over its parts.
impl Model for Texts {
    ghost use Rattle.std.specs.Prelude.{ℕ, List};

    ghost Value = { List ℕ × List ℕ × List ℕ × List ℕ };

    ghost view = { λ it. (it.out.items, it.end.items, it.err.items, it.sure.items) };
}

/// Adds the line and its end. Reports whether there was memory.
fn put_line(text: &mut Vec<u8>, line: &str) -> bool {
    text.extend_from_slice(line.as_bytes()).is_ok() && text.extend_from_slice(b"\n").is_ok()
}

impl Texts {
    pub fn new(alloc: Global) -> Texts {
        Texts {
            out: Vec::new(alloc),
            err: Vec::new(alloc),
            end: Vec::new(alloc),
            sure: Vec::new(alloc),
            replies: 0,
            room: usize::MAX,
            fault: Fault::Nothing,
        }
    }

    /// Empties the texts, and sets the room of a connection's writer. Keeps the fault and the lines about entries.
    pub fn clear(&mut self, room: usize) {
        self.out.clear();
        self.err.clear();
        self.end.clear();
        self.replies = 0;
        self.room = room;
    }

    /// Sets how it ended: with this word, and so many replies or this status.
    pub fn ends(&mut self, word: &str, count: u32) {
        self.end.clear();
        let is_put = self.end.extend_from_slice(word.as_bytes()).is_ok()
            && self.end.extend_from_slice(b" ").is_ok()
            && put_number(&mut self.end, count as usize);
        self.needs(is_put, "no memory");
    }

    pub fn out(&self) -> &[u8]
        ensures { result.now ≡ self.now.0 }
    {
        self.out.as_slice()
    }

    pub fn end(&self) -> &[u8]
        ensures { result.now ≡ self.now.1 }
    {
        self.end.as_slice()
    }

    pub fn err(&self) -> &[u8]
        ensures { result.now ≡ self.now.2 }
    {
        self.err.as_slice()
    }

    pub fn sure(&self) -> &[u8]
        ensures { result.now ≡ self.now.3 }
    {
        self.sure.as_slice()
    }

    /// Adds what was sent or written (`out`), or what was written to standard error (`err`). With another word,
    /// replaces how it ended.
    pub fn puts(&mut self, word: &str, bytes: &[u8]) {
        let put = match word {
            "out" => self.out.extend_from_slice(bytes),
            "err" => self.err.extend_from_slice(bytes),
            _ => {
                self.end.clear();
                self.end.extend_from_slice(bytes)
            }
        };
        self.needs(put.is_ok(), "no memory");
    }

    /// Adds one more reply, cut at the end of the room.
    fn replies(&mut self, status: &str, body: &[u8]) {
        self.replies = self.replies.saturating_add(1);
        let replies = self.replies;
        let is_put = put_reply(&mut self.out, status, body);
        self.out.truncate(self.room);
        self.needs(is_put, "this is no status");
        self.ends("closed", replies);
    }

    /// Adds a line that a till printed.
    fn prints(&mut self, line: &str) {
        let is_put = if line.starts_with(SURE) {
            put_line(&mut self.sure, line)
        } else {
            put_line(&mut self.out, line)
        };
        self.needs(is_put, "no memory");
    }

    /// Puts the status of a till's words, and the lines that the till printed.
    pub fn printed(&mut self, status: u8, lines: &str) {
        self.clear(usize::MAX);
        self.ends("status", u32::from(status));
        for line in lines.lines() {
            self.prints(line);
        }
    }

    /// Swaps what was sent with the lines about entries.
    fn turn(&mut self) {
        mem::swap(&mut self.out, &mut self.sure);
    }

    /// Swaps what was sent with `out`.
    pub fn swap_out(&mut self, out: &mut Vec<u8>) {
        mem::swap(&mut self.out, out);
    }

    pub fn is_well(&self) -> bool {
        matches!(self.fault, Fault::Nothing)
    }

    /// Returns the first fault.
    pub fn fault(&self) -> Fault {
        self.fault
    }

    /// Records the fault, if there was none before.
    pub fn fails(&mut self, fault: Fault) {
        if let Fault::Nothing = self.fault {
            self.fault = fault;
        }
    }

    /// Records that the line can't be played, unless `holds`.
    pub fn needs(&mut self, holds: bool, text: &'static str) {
        if !holds {
            self.fails(Fault::Line(text));
        }
    }

    /// Records that the files weren't opened, for the fault of this name. An empty name means that they were opened.
    pub fn opens(&mut self, name: &'static str) {
        if !name.is_empty() {
            self.fails(Fault::Opening(name));
        }
    }
}

/// A connection's writer.
impl Write for Texts {
    fn write(&mut self, buf: &[u8]) -> io::Result<usize> {
        let n = buf.len().min(self.room.saturating_sub(self.out.len()));
        self.out.extend_from_slice(&buf[..n])?;
        Ok(n)
    }

    fn flush(&mut self) -> io::Result<()> {
        Ok(())
    }
}

/// What was asked.
#[derive(Clone, Copy)]
pub enum Kind {
    /// Nothing is compared.
    Nothing,
    /// No further line says what is wanted.
    Audit,
    Connection,
    Program,
    /// Words at a till.
    Words,
    /// Words at a till, and nobody sees what is printed. Lines say what is wanted, and nothing is compared.
    Unseen,
}

/// What was asked last, with the texts to compare.
#[derive(Drop)]
pub struct Asked {
    pub kind: Kind,
    pub told: Texts,
    pub wanted: Texts,
    /// How many exchanges the row has had.
    pub count: u32,
    /// The line that was played last.
    pub at: usize,
}

impl Asked {
    pub fn new(alloc: Global) -> Asked {
        Asked {
            kind: Kind::Nothing,
            told: Texts::new(alloc),
            wanted: Texts::new(alloc),
            count: 0,
            at: 0,
        }
    }

    /// Begins another exchange.
    pub fn begin(&mut self, kind: Kind, room: usize) {
        self.kind = kind;
        self.told.clear(room);
        self.wanted.clear(room);
        self.count = self.count.saturating_add(1);
    }

    /// Reads a line that says more of what is wanted. For a connection it is a reply, with the word as its status, or
    /// `end`. For a program it is `out`, `err`, `status` or `usage`. `usage` wants status 2 and some text on standard
    /// error. For a till's words it is `status` or `|`.
    pub fn wants(&mut self, alloc: Global, word: &str, line: &str) {
        let kind = self.kind;
        let told = &mut self.told;
        let wanted = &mut self.wanted;
        let mut bytes = Vec::new(alloc);
        if word != "|" {
            put_bytes(alloc, line, &mut bytes, told);
        }
        match (kind, word) {
            (Kind::Words | Kind::Unseen, "|") => wanted.prints(line),
            (Kind::Program | Kind::Words | Kind::Unseen, "status") => {
                told.needs(wanted.end().is_empty(), "two lines say the status");
                let status = number(line, told);
                wanted.ends("status", status);
            }
            (Kind::Connection, "end") | (Kind::Program, "out" | "err") => {
                wanted.puts(word, bytes.as_slice());
            }
            (Kind::Connection, _) => wanted.replies(word, bytes.as_slice()),
            (Kind::Program, "usage") => {
                told.needs(line.is_empty(), "the usage's text isn't compared");
                told.needs(wanted.end().is_empty(), "two lines say the status");
                wanted.ends("status", 2);
                wanted.puts("err", told.err());
                if told.err().is_empty() {
                    wanted.puts("err", b"?");
                }
            }
            _ => told.needs(false, "a reply has no request"),
        }
        let fault = wanted.fault();
        told.fails(fault);
    }

    /// Succeeds only if what came back is what is wanted, in all bytes.
    pub fn settle(&self) -> Result<(), Fault>
        ensures out { OnOk result (self.now.told.0 ≡ self.now.wanted.0) }
        ensures end { OnOk result (self.now.told.1 ≡ self.now.wanted.1) }
        ensures err { OnOk result (self.now.told.2 ≡ self.now.wanted.2) }
    {
        if self.told.out() != self.wanted.out() {
            return Err(Fault::Out);
        }
        if self.told.end() != self.wanted.end() {
            return Err(Fault::End);
        }
        if self.told.err() != self.wanted.err() {
            return Err(Fault::Err);
        }
        Ok(())
    }

    /// Succeeds only if the whole row's lines about entries are the wanted ones, in all bytes.
    pub fn settle_sure(&self) -> Result<(), Fault>
        ensures { OnOk result (self.now.told.3 ≡ self.now.wanted.3) }
    {
        if self.told.sure() != self.wanted.sure() {
            return Err(Fault::Out);
        }
        Ok(())
    }

    /// Compares the whole row's lines about entries, unless there is a fault. Records a difference as a fault.
    pub fn compare_sure(&mut self) {
        if !self.told.is_well() {
            return;
        }
        if let Err(fault) = self.settle_sure() {
            self.told.turn();
            self.wanted.turn();
            self.told.fails(fault);
        }
    }

    /// Compares what was asked last, unless there is a fault or a line with this first word says more of it. Records a
    /// difference as a fault.
    pub fn compare(&mut self, word: &str) {
        let kind = self.kind;
        if matches!(kind, Kind::Nothing) || says_more(word) || !self.told.is_well() {
            return;
        }
        self.kind = Kind::Nothing;
        let is_said = !self.wanted.end().is_empty();
        match kind {
            Kind::Unseen => return,
            Kind::Words if !is_said => self.wanted.ends("status", 0),
            Kind::Connection => self.told.needs(is_said, "a request has no reply"),
            _ => {}
        }
        if let Err(fault) = self.settle() {
            self.told.fails(fault);
        }
    }

    /// Returns the place of the first byte that differs, counted from 1.
    pub fn difference(&self) -> usize {
        let mut at = 1usize;
        for (a, b) in self.told.out().iter().zip(self.wanted.out()) {
            if *a != *b {
                return at;
            }
            at = at.saturating_add(1);
        }
        at
    }
}
