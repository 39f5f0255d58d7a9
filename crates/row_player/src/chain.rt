//! The chain of the row that is played, and what a row does with it.
use crate::asked::Texts;
use crate::ram::{Calls, Image, MANY, NEVER};
use crate::stage::{Deed, Opening, Stage, WHOLE};
use crate::stops::{flip, resume_at_each, sweep, trial};
use crate::texts::number;
use std::alloc::Global;
use std::marker::Model;

/// Where the chain of a row is.
#[derive(Clone, Copy)]
pub enum Held {
    Nowhere,
    /// In files that aren't closed.
    Fixed,
    Open,
    /// In files whose log fails.
    Failing,
    Closed,
}

/// The chain of the row that is played.
#[derive(Drop)]
pub struct Chain<S: Stage> {
    pub stage: S,
    pub held: Held,
    /// What the chain's files hold, if it is closed.
    pub files: Image,
}

/// Says nothing of the value. So its holder isn't checked over its parts.
impl<S: Stage> Model for Chain<S> {
    ghost use Rattle.std.specs.Prelude.{⊤};

    ghost Value = { ⊤ };

    ghost view = { λ _. tt };
}

/// The first lot and the first customer, and the replies to them.
const STOCK: &str =
    "POST /import/i1/1/2026-03-01T10:00:00/L1 HTTP/1.1\r\ncounter-token: 11111111111111111111111111111111\r\ncontent-length: 23\r\n\r\nfilm_id,copies\n1,3\n2,1\nPOST /customer HTTP/1.1\r\ncounter-token: 11111111111111111111111111111111\r\ncontent-length: 133\r\n\r\n{\"key\":\"k1\",\"staff\":1,\"at\":\"2026-03-01T10:00:00\",\"first\":\"MARY\",\"last\":\"SMITH\",\"address\":\"1 Main\",\"postal\":\"\",\"phone\":\"555\",\"city\":1}";

const STOCKED: &str =
    "HTTP/1.1 200 OK\r\ncontent-type: application/json\r\ncontent-length: 22\r\n\r\n{\"copies\":4,\"first\":1}HTTP/1.1 200 OK\r\ncontent-type: application/json\r\ncontent-length: 14\r\n\r\n{\"customer\":1}";

impl<S: Stage> Chain<S> {
    pub fn new(alloc: Global, stage: S) -> Chain<S> {
        Chain {
            stage,
            held: Held::Nowhere,
            files: Image::new(alloc),
        }
    }

    /// Closes the chain. Its files fail no more.
    pub fn rest(&mut self, told: &mut Texts) {
        match self.held {
            Held::Closed => return,
            Held::Nowhere => told.needs(false, "there is no chain yet"),
            Held::Fixed => told.needs(false, "the chain isn't in files"),
            Held::Open | Held::Failing => {}
        }
        let _ = self.stage.close(&mut self.files, told);
        self.held = Held::Closed;
    }

    /// Opens, migrates or makes a chain in the files.
    pub fn open(&mut self, opening: Opening, calls: Calls, held: Held, told: &mut Texts) {
        let name = self.stage.open(opening, &self.files, calls);
        told.opens(name);
        self.held = held;
    }

    /// Closes the chain, and does the deed with the tables in its files.
    pub fn change(&mut self, alloc: Global, deed: Deed<'_>, told: &mut Texts) {
        self.rest(told);
        S::tables(alloc, deed, &mut self.files, told);
    }

    /// Begins a new chain: `demo`, `files`, `first` (of version 1), `empty`, `stocked` (with the first lot and the
    /// first customer) or `limits COMMANDS COPIES`.
    pub fn begin(&mut self, alloc: Global, words: &str, told: &mut Texts) {
        let (word, limits) = words.split_once(' ').unwrap_or((words, ""));
        self.held = Held::Closed;
        self.files.put(&[], &[], told);
        match word {
            "empty" => return,
            "first" => return self.change(alloc, Deed::First, told),
            _ => self.change(alloc, Deed::Fill, told),
        }
        match word {
            "demo" | "stocked" => self.open(Opening::Opened, NEVER, Held::Fixed, told),
            "files" => self.open(Opening::Opened, NEVER, Held::Open, told),
            "limits" => {
                let (commands, copies) = limits.split_once(' ').unwrap_or((limits, ""));
                let opening = Opening::Limited(number(commands, told), number(copies, told));
                self.open(opening, NEVER, Held::Fixed, told);
            }
            _ => told.needs(false, "there is no such chain"),
        }
        if word == "stocked" {
            self.stage.serve(STOCK.as_bytes(), &WHOLE, told);
            let is_stocked = told.out() == STOCKED.as_bytes();
            told.needs(is_stocked, "the first lot or customer isn't answered");
        }
    }

    /// Expects that the files aren't opened, for the fault of this name.
    pub fn refuse(&mut self, opening: Opening, fault: &str, told: &mut Texts) {
        self.rest(told);
        let name = self.stage.open(opening, &self.files, NEVER);
        told.needs(!name.is_empty(), "the files are opened");
        if name != fault {
            told.opens(name);
        }
        let _ = self.stage.close(&mut self.files, told);
    }

    /// Closes the chain's files, and opens a chain in them.
    pub fn open_again(&mut self, opening: Opening, told: &mut Texts) {
        match (self.held, opening) {
            (Held::Open, Opening::Opened) => {
                self.open(Opening::Again, NEVER, Held::Open, told);
            }
            _ => {
                self.rest(told);
                self.open(opening, NEVER, Held::Open, told);
            }
        }
    }

    /// Stops a connection, or an opening, at each call of the disks, on copies of the files.
    pub fn sweep(
        &mut self,
        alloc: Global,
        opening: Opening,
        connection: Option<&[u8]>,
        told: &mut Texts,
    ) {
        self.rest(told);
        sweep(
            alloc,
            &mut self.stage,
            opening,
            &self.files,
            connection,
            told,
        );
    }

    /// Puts the chain on a disk of the log that fails so many calls before the connection would be answered.
    pub fn fail(&mut self, alloc: Global, fewer: u32, input: &[u8], told: &mut Texts) {
        self.rest(told);
        let mut tried = Image::new(alloc);
        let made = trial(
            &mut self.stage,
            Opening::Opened,
            &self.files,
            MANY,
            input,
            &mut tried,
            told,
        );
        let log = made.log.saturating_sub(u64::from(fewer));
        self.open(Opening::Opened, Calls { log, ..NEVER }, Held::Failing, told);
    }

    /// Stops the chain at each call of the disks, on copies of the files, while it answers the requests as values. Puts
    /// what is answered after each stop into `told`.
    pub fn resume(&mut self, alloc: Global, input: &[u8], told: &mut Texts) {
        self.rest(told);
        let mut wanted = Vec::new(alloc);
        let files = &self.files;
        resume_at_each::<S>(alloc, files, input, true, &mut wanted, told);
        resume_at_each::<S>(alloc, files, input, false, &mut wanted, told);
        told.err.clear();
    }

    /// Changes the last byte of a text in the database's file: `TEXT BYTE`.
    pub fn flip(&mut self, alloc: Global, line: &str, told: &mut Texts) {
        let (text, byte) = line.rsplit_once(' ').unwrap_or((line, ""));
        let byte = byte.bytes().next().unwrap_or(0);
        self.change(alloc, Deed::CopyIn, told);
        flip(
            alloc,
            &mut self.stage,
            &mut self.files,
            text.as_bytes(),
            byte,
            told,
        );
    }
}
