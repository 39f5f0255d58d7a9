//! What the rows are played on: a chain in two files on disks in memory, and the whole program.
use crate::calls::call;
use crate::serving::{listen, put_replies, serve_as};
use crate::tables::work;
use crate::values::Values;
use chain_engine::{Chain, OpenFault, over_a_stop};
use chain_files::connect;
use row_player::{
    Calls, Deed, How, Image, InMemory, NEVER, Opening, Stage, Texts, Tills, calls_of, crash, disks,
};
use sakila_office::run;
use shop_types::{Limits, Token};
use sql_files::close;
use sqlite::{FileStore, Files};
use std::alloc::Global;
use std::marker::Model;
use std::mem;

/// A chain, files without a chain, or neither.
#[derive(Drop)]
enum Held<D: InMemory> {
    Open(Chain<FileStore<D>>),
    Closed(Files<D>),
    Gone,
}

/// The chain of the row that is played.
#[derive(Drop)]
pub struct Counter<D: InMemory> {
    alloc: Global,
    held: Held<D>,
}

/// Says nothing of the value. So its holder isn't checked over its parts.
impl<D: InMemory> Model for Counter<D> {
    ghost use Rattle.std.specs.Prelude.{⊤};

    ghost Value = { ⊤ };

    ghost view = { λ _. tt };
}

/// Returns the fault's name.
pub fn name_of(fault: OpenFault) -> &'static str {
    match fault {
        OpenFault::Memory => "memory",
        OpenFault::Size => "size",
        OpenFault::Store => "store_failed",
        OpenFault::NotAChain => "not_a_chain",
        OpenFault::OtherVersion => "other_version",
        OpenFault::Damaged => "damaged",
        OpenFault::Already => "already",
    }
}

impl<D: InMemory> Counter<D> {
    pub fn new(alloc: Global) -> Counter<D> {
        Counter {
            alloc,
            held: Held::Gone,
        }
    }

    /// Keeps the chain, or its files. Returns an empty name, or the name of the fault if there is no chain.
    fn keep(&mut self, opened: Result<Chain<FileStore<D>>, (OpenFault, Files<D>)>) -> &'static str {
        match opened {
            Ok(chain) => {
                self.held = Held::Open(chain);
                ""
            }
            Err((fault, disks)) => {
                self.held = Held::Closed(disks);
                name_of(fault)
            }
        }
    }
}

impl<D: InMemory> Stage for Counter<D> {
    fn open(&mut self, opening: Opening, files: &Image, calls: Calls) -> &'static str {
        let alloc = self.alloc;
        let limits = match opening {
            Opening::Limited(commands, copies) => Limits::new(commands, copies),
            _ => Some(Limits::default()),
        };
        let office = Token::read(b"0123456789abcdef0123456789abcdef");
        let (Some(limits), Some(office)) = (limits, office) else {
            return "limits";
        };
        if let Opening::Again = opening {
            return match mem::replace(&mut self.held, Held::Gone) {
                Held::Open(chain) => self.keep(chain.reopen()),
                other => {
                    self.held = other;
                    "closed"
                }
            };
        }
        self.held = Held::Gone;
        let disks = disks(alloc, files, calls);
        let opened = match opening {
            Opening::Migrated => Chain::migrate_files(alloc, disks, limits),
            Opening::Made => Chain::create_files(alloc, disks, limits, &office),
            _ => Chain::open_files(alloc, disks, limits),
        };
        self.keep(opened)
    }

    fn close(&mut self, files: &mut Image, told: &mut Texts) -> Calls {
        let mut disks = match mem::replace(&mut self.held, Held::Gone) {
            Held::Open(chain) => chain.close(),
            Held::Closed(disks) => disks,
            Held::Gone => return NEVER,
        };
        files.take(&disks, told);
        let made = Calls {
            log: calls_of(&mut disks.log),
            db: calls_of(&mut disks.db),
        };
        crash(&mut disks);
        files.take(&disks, told);
        files.turn();
        self.held = Held::Closed(disks);
        made
    }

    fn serve(&mut self, input: &[u8], how: &How, told: &mut Texts) {
        let alloc = self.alloc;
        told.clear(how.room);
        let Held::Open(chain) = &mut self.held else {
            return told.needs(false, "there is no chain yet");
        };
        serve_as(alloc, input, how, told, chain);
    }

    fn listen(&mut self, tills: &Tills<'_>, comers: u32, millis: Option<u32>) -> u8 {
        let alloc = self.alloc;
        match &mut self.held {
            Held::Open(chain) => listen(alloc, tills, comers, millis, chain),
            _ => 3,
        }
    }

    fn known_films(&self) -> usize {
        match &self.held {
            Held::Open(chain) => chain.cached_films(),
            _ => 0,
        }
    }

    fn tables(alloc: Global, deed: Deed<'_>, files: &mut Image, told: &mut Texts) {
        let mut conn = match connect::<D>(alloc, disks(alloc, files, NEVER)) {
            Ok(conn) => conn,
            Err((_, _files)) => return told.needs(false, "the database isn't opened"),
        };
        if let Deed::CopyIn = deed {
            match conn.close_files() {
                Ok(disks) => files.take(&disks, told),
                Err((_, _store)) => told.needs(false, "the log isn't copied"),
            }
        } else {
            work(alloc, deed, &mut conn, told);
            let disks = close(conn);
            files.take(&disks, told);
        }
    }

    fn resume(alloc: Global, input: &[u8], files: &Image, calls: Calls, told: &mut Texts) -> bool {
        let limits = Limits::default();
        let chain = match Chain::open_files(alloc, disks::<D>(alloc, files, calls), limits) {
            Ok(chain) => chain,
            Err((_, _files)) => return false,
        };
        let asked = Values::read(alloc, input, told);
        match over_a_stop(alloc, chain, limits, asked.list(), asked.list()) {
            Ok(it) => {
                let is_put = put_replies(alloc, &mut told.out, it.before.as_slice())
                    && put_replies(alloc, &mut told.err, it.behind.as_slice());
                told.needs(is_put, "no memory");
                told.ends("closed", u32::try_from(it.behind.len()).unwrap_or(0));
            }
            Err(_) => told.needs(false, "the chain isn't opened again"),
        }
        true
    }

    fn call(alloc: Global, name: &str, told: &mut Texts) {
        call(alloc, name, told);
    }

    fn run(rt: &HostRuntime, words: &[String], input: &[u8], told: &mut Texts) -> u8 {
        let mut input = input;
        run(rt, words, &mut input, &mut told.out, &mut told.err)
    }
}
