//! What rows are played on: the product's chain and its program, by the few calls that rows need.
use crate::asked::Texts;
use crate::ram::{Calls, Image};
use crate::tills::Tills;
use std::alloc::Global;
use std::io::{self, ErrorKind, Read};

/// How requests come and are answered.
#[derive(Clone, Copy)]
pub enum Come {
    /// As bytes of a connection that is served alone.
    Alone,
    /// As bytes of a connection that is served by turns, each with so many requests.
    ByTurns(u32),
    /// As values: with their tokens, or as requests of this branch.
    AsValues(Option<u32>),
}

/// How the bytes of a connection come, how many requests it may have, and how many bytes of replies there is room for.
#[derive(Clone, Copy)]
pub struct How {
    pub come: Come,
    pub(crate) pieces: usize,
    pub(crate) cut: usize,
    /// Whether the reader fails at the point where its input is cut.
    pub(crate) breaks: bool,
    /// How many requests the connection may have.
    pub most: u32,
    pub room: usize,
}

pub(crate) const WHOLE: How = How {
    come: Come::Alone,
    pieces: usize::MAX,
    cut: usize::MAX,
    breaks: false,
    most: 1000,
    room: usize::MAX,
};

/// Gives its bytes a few at a time, and then ends or fails.
#[derive(Drop)]
pub struct Pieces<'b> {
    bytes: &'b [u8],
    most: usize,
    breaks: bool,
}

impl<'b> Pieces<'b> {
    /// Returns a reader that gives the bytes in pieces, as `how` says.
    pub fn new(bytes: &'b [u8], how: &How) -> Pieces<'b> {
        Pieces {
            bytes: &bytes[..how.cut.min(bytes.len())],
            most: how.pieces,
            breaks: how.breaks,
        }
    }
}

impl Read for Pieces<'_> {
    fn read(&mut self, buf: &mut [u8]) -> io::Result<usize> {
        if self.breaks && self.bytes.is_empty() {
            return Err(io::Error::from(ErrorKind::ConnectionReset));
        }
        let n = self.most.min(buf.len()).min(self.bytes.len());
        buf[..n].copy_from_slice(&self.bytes[..n]);
        self.bytes = &self.bytes[n..];
        Ok(n)
    }
}

/// How the player gets a chain in files.
#[derive(Clone, Copy)]
pub enum Opening {
    /// The files hold a chain, which is opened.
    Opened,
    /// The files hold a chain, which is opened with these limits of commands and copies.
    Limited(u32, u32),
    /// The files hold a chain of the version before, which is migrated.
    Migrated,
    /// A chain is made in files with nothing in them.
    Made,
    /// The open chain is closed, and opened again on the same disks.
    Again,
}

/// What is done with the tables in files.
#[derive(Clone, Copy)]
pub enum Deed<'t> {
    /// The tables are made, with the opening rows.
    Fill,
    /// The tables of version 1 are made, with head office's token and no other row.
    First,
    /// A statement is run.
    Statement(&'t str),
    /// All that is in the log alone is copied into the database's file.
    CopyIn,
    /// The tables are audited, sound or not. The audit's text comes back.
    Audit,
    /// Only custody is audited.
    Custody,
}

/// The chain that rows talk to, one at a time and in two files on disks in memory, and the program that they run. What
/// can't be done becomes a fault in `told`.
pub trait Stage: Drop {
    /// Opens, migrates or makes a chain in copies of the files, on disks that fail after so many calls. Returns an
    /// empty name, or the name of the fault if there is no chain.
    fn open(&mut self, opening: Opening, files: &Image, calls: Calls) -> &'static str;

    /// Closes the chain, if there is one, and puts what its files hold then into `files`. If no chain was opened, puts
    /// what the files hold that failed to open. Before that, puts what a crash leaves, so that `turn` gives it. Returns
    /// how many calls were made, if the disks were to fail after `MOST_CALLS`.
    fn close(&mut self, files: &mut Image, told: &mut Texts) -> Calls;

    /// Serves a connection that gets these bytes as `how` says, or reads their requests and answers them as values.
    /// Puts all that is sent back, and how it ends, into `told`.
    fn serve(&mut self, input: &[u8], how: &How, told: &mut Texts);

    /// Serves so many tills side by side, and waits so many milliseconds for each. Without milliseconds, serves them at
    /// a port of its choice, as the program does. Returns the status.
    fn listen(&mut self, tills: &Tills<'_>, comers: u32, millis: Option<u32>) -> u8;

    /// Returns the number of films that the chain has cached.
    fn known_films(&self) -> usize;

    /// Does the deed with the tables in the files. Puts an audit's text into `told`.
    fn tables(alloc: Global, deed: Deed<'_>, files: &mut Image, told: &mut Texts);

    /// Reads the requests, and puts them as values to a chain over copies of the files, on disks that fail after so
    /// many calls. Puts the replies before the stop into `out`, and the replies to the same requests after it into
    /// `err`. Reports whether the chain was opened.
    fn resume(alloc: Global, input: &[u8], files: &Image, calls: Calls, told: &mut Texts) -> bool;

    /// Makes the calls of this name, which no request makes.
    fn call(alloc: Global, name: &str, told: &mut Texts);

    /// Runs the program with these words and this standard input. Returns the status.
    fn run(rt: &HostRuntime, words: &[String], input: &[u8], told: &mut Texts) -> u8;
}
