//! Two files on disks in memory, of a chain or of a till's book. Each disk fails after so many calls.
use crate::asked::Texts;
use sqlite_disk::{Crash, Disk, Files, Fuse, Memory};
use std::alloc::Global;
use std::marker::Model;
use std::mem;

/// A disk in memory.
pub trait InMemory: Crash + Drop {
    /// Makes a disk that holds these bytes, and fails after so many calls. If there isn't enough memory, the disk holds
    /// fewer bytes, and the rows then differ.
    fn holding(alloc: Global, bytes: &[u8], calls: u64) -> Self;

    /// Returns what the disk holds.
    fn held(&self) -> &[u8];
}

/// The disks of all rows.
pub type Ram = Fuse<Memory>;

impl InMemory for Fuse<Memory> {
    fn holding(alloc: Global, bytes: &[u8], calls: u64) -> Fuse<Memory> {
        let mut disk = Memory::new(alloc);
        let _ = disk.write_at(0, bytes);
        let _ = disk.sync();
        Fuse::new(disk, calls)
    }

    fn held(&self) -> &[u8] {
        self.inner().bytes()
    }
}

/// What two files hold, and what was put there before. After `Stage::close` these are what the closed chain left, and
/// what a crash leaves of it.
#[derive(Drop)]
pub struct Image {
    log: Vec<u8>,
    db: Vec<u8>,
    log_before: Vec<u8>,
    db_before: Vec<u8>,
}

/// Says nothing of the value. So its holder isn't checked over its parts.
impl Model for Image {
    ghost use Rattle.std.specs.Prelude.{⊤};

    ghost Value = { ⊤ };

    ghost view = { λ _. tt };
}

impl Image {
    /// Makes files with nothing in them.
    pub fn new(alloc: Global) -> Image {
        Image {
            log: Vec::new(alloc),
            db: Vec::new(alloc),
            log_before: Vec::new(alloc),
            db_before: Vec::new(alloc),
        }
    }

    /// Makes files with what the disks hold. If there isn't enough memory, the files hold fewer bytes.
    pub fn of<D: InMemory>(alloc: Global, disks: &Files<D>) -> Image {
        let mut files = Image::new(alloc);
        let mut told = Texts::new(alloc);
        files.take(disks, &mut told);
        files
    }

    pub(crate) fn db(&self) -> &[u8] {
        self.db.as_slice()
    }

    /// Swaps what the files hold with what was put before.
    pub fn turn(&mut self) {
        mem::swap(&mut self.log, &mut self.log_before);
        mem::swap(&mut self.db, &mut self.db_before);
    }

    /// Puts these bytes into the files. Keeps what they held as what was put before.
    pub fn put(&mut self, log: &[u8], db: &[u8], told: &mut Texts) {
        self.turn();
        self.log.clear();
        self.db.clear();
        let is_put = self.log.extend_from_slice(log).is_ok()
            && self.db.extend_from_slice(db).is_ok();
        told.needs(is_put, "no memory");
    }

    /// Puts what the disks hold into the files.
    pub fn take<D: InMemory>(&mut self, disks: &Files<D>, told: &mut Texts) {
        self.put(disks.log.held(), disks.db.held(), told);
    }

    /// Puts the byte at the place in the database's file, and returns the byte that was there.
    pub(crate) fn swap_byte(&mut self, place: usize, byte: u8) -> u8 {
        match self.db.get_mut(place) {
            Some(it) => mem::replace(it, byte),
            None => byte,
        }
    }

    pub(crate) fn is_same(&self, other: &Image) -> bool {
        self.log.as_slice() == other.log.as_slice() && self.db.as_slice() == other.db.as_slice()
    }
}

/// After how many calls the disk of each file fails, or how many calls it had.
#[derive(Clone, Copy)]
pub struct Calls {
    pub log: u64,
    pub db: u64,
}

/// The disks never fail.
pub const NEVER: Calls = Calls {
    log: u64::MAX,
    db: u64::MAX,
};

/// More calls of a disk than an opening and a connection take.
pub const MOST_CALLS: u64 = 4000;

/// The disks fail only after more calls than are made.
pub(crate) const MANY: Calls = Calls {
    log: MOST_CALLS,
    db: MOST_CALLS,
};

/// Makes the disk of one file fail after so many calls, and the other file's never.
pub fn failing_after(is_log: bool, calls: u64) -> Calls {
    if is_log {
        Calls {
            log: calls,
            ..NEVER
        }
    } else {
        Calls { db: calls, ..NEVER }
    }
}

/// Makes disks that hold what the files hold, and fail after so many calls.
pub fn disks<D: InMemory>(alloc: Global, files: &Image, calls: Calls) -> Files<D> {
    Files {
        log: D::holding(alloc, files.log.as_slice(), calls.log),
        db: D::holding(alloc, files.db.as_slice(), calls.db),
    }
}

/// Has both disks lose what wasn't synced. They fail no more.
pub fn crash<D: InMemory>(disks: &mut Files<D>) {
    disks.log.crash();
    disks.db.crash();
}

/// Returns how many of `MOST_CALLS` calls a disk had. Finds out how many are left by using them up.
pub fn calls_of<D: Disk>(disk: &mut D) -> u64 {
    for left in 0..MOST_CALLS {
        if !disk.may_be_used() || disk.len().is_err() {
            return MOST_CALLS.saturating_sub(left);
        }
    }
    0
}
