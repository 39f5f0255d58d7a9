//! The server: a chain in files in memory. The chain is opened anew if its disks crash.
use crate::book::closed;
use crate::line::Counter;
use chain_engine::{Chain, restart};
use chain_files::{FirstRows, connect, create};
use counter_http::serve;
use office_words::ClapWords;
use row_player::{Calls, Fault, Image, InMemory, NEVER, crash, disks};
use shop_types::Limits;
use sqlite::{Alter, Connection, FileStore, Files};
use std::alloc::Global;
use std::marker::Model;
use std::mem;

/// Makes the tables with the opening rows.
fn fill<S: Alter>(conn: &mut Connection<S>) -> bool {
    conn.is_autocommit() && create(conn, &FirstRows::OfOpening).is_ok()
}

/// Returns what the files of a chain with the opening rows hold.
pub fn new_chain<D: InMemory>(alloc: Global) -> Result<Image, Fault> {
    match connect::<D>(alloc, disks(alloc, &Image::new(alloc), NEVER)) {
        Ok(mut conn) => {
            if fill(&mut conn) {
                return closed(alloc, conn);
            }
            drop(conn);
        }
        Err((_, files)) => drop(files),
    }
    Err(Fault::Line("no chain is made"))
}

/// Opens the chain that the files hold, if there is one. Returns also how often the files' disks crashed.
fn opened<D: InMemory>(alloc: Global, files: Files<D>) -> (Option<Chain<FileStore<D>>>, u32) {
    let limits = Limits::default();
    match Chain::open_files(alloc, files, limits) {
        Ok(chain) => (Some(chain), 0),
        Err((_, mut files)) => {
            crash(&mut files);
            (Chain::open_files(alloc, files, limits).ok(), 1)
        }
    }
}

/// Serves one request. Returns whether the chain has failed.
fn fails_at<S: Alter>(
    alloc: Global,
    chain: &mut Chain<S>,
    mut sent: &[u8],
    told: &mut Vec<u8>,
) -> bool {
    let words = ClapWords { alloc };
    let _ = serve(alloc, &mut sent, told, chain, &words, 1);
    chain.is_failed()
}

/// A server. Without a chain it sends no reply.
#[derive(Drop)]
pub struct Shop<D: InMemory> {
    alloc: Global,
    chain: Option<Chain<FileStore<D>>>,
    stops: u32,
}

/// The model is trivial, as for `Days`.
impl<D: InMemory> Model for Shop<D> {
    ghost use Rattle.std.specs.Prelude.{⊤};

    ghost Value = { ⊤ };

    ghost view = { λ _. tt };
}

impl<D: InMemory> Shop<D> {
    /// Makes a server of the image's chain, on disks that fail after so many calls.
    pub fn new(alloc: Global, image: &Image, calls: Calls) -> Shop<D> {
        let (chain, stops) = opened(alloc, disks(alloc, image, calls));
        Shop {
            alloc,
            chain,
            stops,
        }
    }

    /// Crashes the server's disks, and opens the chain that they hold.
    fn restart(&mut self) {
        self.stops = self.stops.saturating_add(1);
        let alloc = self.alloc;
        if let Some(chain) = self.chain.take() {
            let again = restart(alloc, chain, Limits::default()).ok();
            drop(mem::replace(&mut self.chain, again));
        }
    }
}

impl<D: InMemory> Counter for Shop<D> {
    fn answer(&mut self, sent: &[u8], told: &mut Vec<u8>) {
        let alloc = self.alloc;
        let is_failed = match &mut self.chain {
            Some(chain) => fails_at(alloc, chain, sent, told),
            None => false,
        };
        if is_failed {
            self.restart();
        }
    }

    fn stops(&self) -> u32 {
        self.stops
    }
}
