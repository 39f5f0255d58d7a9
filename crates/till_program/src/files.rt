//! The till's files: the book with its log, the settings beside it, and lists that may go at any time. They are their
//! owner's alone.

ghost use Rattle.std.specs.Prelude.{◌≡◌, false, IfOk};

use counter_routes::Routes;
use sqlite::{Connection, FileStore, Files};
use sqlite_disk::Unknown;
use sqlite_std_file::{File, OpenError};
use std::alloc::Global;
use std::fs::{self, OpenOptions, Permissions};
use std::io::{self, ErrorKind, Write};
use std::os::unix::fs::{OpenOptionsExt, PermissionsExt};
use std::thread;
use std::time::Duration;
use till_book::read_end;
use till_cashier::{Shelf, TillFault};
use till_files::{BookFault, close_book, create_book, migrate_book, open_book};

/// How often a book is asked for that another window has, a tenth of a second apart.
const TURNS: u32 = 50;

/// What a database begins with, in SQLite's format.
const DATABASE: &[u8] = b"SQLite format 3\0";

/// Who may read and write the till's files: their owner.
const OWNER: u32 = 0o600;

/// Returns whether there is such a file.
pub(crate) fn is_there(rt: &HostRuntime, path: &str) -> bool {
    fs::metadata(rt, path).is_ok()
}

/// Makes a file that its owner alone may read, whatever the process's mask. One that is there stays as it is.
fn make_own(rt: &HostRuntime, path: &str) -> io::Result<()> {
    let made = OpenOptions::new()
        .write(true)
        .create_new(true)
        .mode(OWNER)
        .open(rt, path);
    match made {
        Ok(file) => {
            drop(file);
            fs::set_permissions(rt, path, Permissions::from_mode(OWNER))
        }
        Err(error) if error.kind() == ErrorKind::AlreadyExists => Ok(()),
        Err(error) => Err(error),
    }
}

/// Writes a file of the till's in the place of what it held. Its owner alone may read it.
pub fn write_own(rt: &HostRuntime, path: &str, bytes: &[u8]) -> io::Result<()> {
    make_own(rt, path)?;
    fs::write(rt, path, bytes)
}

/// Writes the bytes at the end of a file of the till's.
fn append_own(rt: &HostRuntime, path: &str, bytes: &[u8]) -> io::Result<()> {
    make_own(rt, path)?;
    OpenOptions::new()
        .append(true)
        .open(rt, path)?
        .write_all(bytes)
}

/// Writes a file of the till's beside the one that is there, and then puts it in that one's place: what is read there is
/// the one or the other as a whole.
pub(crate) fn replace_own(rt: &HostRuntime, path: &str, bytes: &[u8]) -> Result<(), TillFault> {
    let alloc = rt.alloc();
    let beside = format!(in alloc; "{path}.new")?;
    write_own(rt, beside.as_str(), bytes)?;
    fs::File::open(rt, beside.as_str())?.sync_all()?;
    fs::rename(rt, beside.as_str(), path)?;
    Ok(())
}

/// Returns whether the file holds nothing, or begins as a database does.
pub(crate) fn may_be_book(rt: &HostRuntime, path: &str) -> bool {
    match fs::read(rt, path) {
        Ok(bytes) => bytes.is_empty() || bytes.as_slice().starts_with(DATABASE),
        Err(_) => false,
    }
}

/// Returns the fault of a book in a file. If the file can be read and is no database, it is no till's book.
fn fault_at(rt: &HostRuntime, path: &str, fault: BookFault) -> TillFault {
    let is_other = matches!(fault, BookFault::Store) && is_there(rt, path);
    if is_other && !may_be_book(rt, path) {
        return TillFault::NotABook;
    }
    TillFault::from(fault)
}

/// Returns the name of the file that a window makes beside a book that it wants while another window holds that book.
fn wanted_at(alloc: Global, path: &str) -> Option<String> {
    format!(in alloc; "{path}.wanted").ok()
}

/// Asks the window that has the book for it.
fn ask_for(rt: &HostRuntime, path: &str) {
    if let Some(wanted) = wanted_at(rt.alloc(), path) {
        let _ = make_own(rt, wanted.as_str());
    }
}

/// Tests whether another window asks for the book.
pub(crate) fn is_asked_for(rt: &HostRuntime, path: &str) -> bool {
    match wanted_at(rt.alloc(), path) {
        Some(wanted) => is_there(rt, wanted.as_str()),
        None => false,
    }
}

/// Takes back what asks for the book.
pub(crate) fn unask(rt: &HostRuntime, path: &str) {
    if let Some(wanted) = wanted_at(rt.alloc(), path) {
        let _ = fs::remove_file(rt, wanted.as_str());
    }
}

/// Opens the two files of a book. Returns none if another window has them.
fn free_files(rt: &HostRuntime, path: &str) -> Result<Option<Files<File>>, TillFault> {
    match sqlite_std_file::open(rt, path, Unknown) {
        Ok(files) => Ok(Some(files)),
        Err(OpenError::Busy) => Ok(None),
        Err(OpenError::OutOfMemory) => Err(TillFault::Memory),
        Err(_) => Err(TillFault::Book),
    }
}

/// Asks for the two files of a book that another window has, up to five seconds.
fn asked_files(rt: &HostRuntime, path: &str) -> Result<Files<File>, TillFault> {
    for _ in 0..TURNS {
        ask_for(rt, path);
        thread::sleep(rt, Duration::from_millis(100));
        if let Some(files) = free_files(rt, path)? {
            return Ok(files);
        }
    }
    Err(TillFault::Busy)
}

/// Opens the two files of a book. If another window has them, they are asked for up to five seconds.
fn files_at(rt: &HostRuntime, path: &str) -> Result<Files<File>, TillFault> {
    if let Some(files) = free_files(rt, path)? {
        return Ok(files);
    }
    let files = asked_files(rt, path);
    unask(rt, path);
    files
}

/// Makes a book in a file that isn't there or holds nothing.
fn create_at(rt: &HostRuntime, path: &str) -> Result<Connection<FileStore<File>>, TillFault> {
    make_own(rt, path)?;
    let files = files_at(rt, path)?;
    match create_book(rt.alloc(), files) {
        Ok(conn) => Ok(conn),
        Err((fault, files)) => {
            drop(files);
            Err(fault_at(rt, path, fault))
        }
    }
}

/// Opens the book in two files. A book that was made before it had tables beside the journal gets them.
fn opened_or_migrated(
    alloc: Global,
    routes: &Routes,
    files: Files<File>,
) -> Result<Connection<FileStore<File>>, (BookFault, Files<File>)>
    ensures { IfOk result (λ conn. conn.in_transaction ≡ false) }
{
    match open_book(alloc, files) {
        Ok(conn) => Ok(conn),
        Err((BookFault::NotABook, files)) => migrate_book(alloc, routes, files),
        Err((fault, files)) => Err((fault, files)),
    }
}

/// Opens the book in a file.
pub(crate) fn open_at(
    rt: &HostRuntime,
    routes: &Routes,
    path: &str,
) -> Result<Connection<FileStore<File>>, TillFault>
    ensures { IfOk result (λ conn. conn.in_transaction ≡ false) }
{
    let files = files_at(rt, path)?;
    match opened_or_migrated(rt.alloc(), routes, files) {
        Ok(conn) => Ok(conn),
        Err((fault, files)) => {
            drop(files);
            Err(fault_at(rt, path, fault))
        }
    }
}

/// Opens the book in a file, if it has no entry.
fn open_empty(rt: &HostRuntime, path: &str) -> Result<Connection<FileStore<File>>, TillFault> {
    let Ok(routes) = Routes::new(rt.alloc()) else {
        return Err(TillFault::Memory);
    };
    let mut conn = open_at(rt, &routes, path)?;
    let end = read_end(&mut conn);
    match end {
        Ok(end) if end.entries == 0 => Ok(conn),
        Ok(_) => {
            drop(close_book(conn));
            Err(TillFault::Already)
        }
        Err(_) => {
            drop(close_book(conn));
            Err(TillFault::Book)
        }
    }
}

/// Makes a book in a file that holds nothing, or opens the one there, where it has no entry.
pub(crate) fn begin_at(
    rt: &HostRuntime,
    path: &str,
) -> Result<Connection<FileStore<File>>, TillFault> {
    match create_at(rt, path) {
        Ok(conn) => Ok(conn),
        Err(TillFault::Already) => open_empty(rt, path),
        Err(fault) => Err(fault),
    }
}

/// A shelf in files beside the book: each has the second in which it was put there, as a line, and then what was put.
#[derive(Clone, Copy)]
pub(crate) struct FileShelf<'a> {
    pub(crate) rt: &'a HostRuntime,
    pub(crate) book: &'a str,
}

impl FileShelf<'_> {
    fn path(&self, alloc: Global, name: &str) -> Option<String> {
        let book = self.book;
        format!(in alloc; "{book}.{name}").ok()
    }
}

/// Parts the second in the first line from the bytes after that line.
fn parted(alloc: Global, bytes: &[u8]) -> Option<(u64, Vec<u8>)> {
    let end = bytes.iter().position(|byte| *byte == b'\n')?;
    let (line, rest) = bytes.split_at(end);
    let second = std::str::from_utf8(line).ok()?.parse::<u64>().ok()?;
    let list = Vec::from_slice(alloc, rest.get(1..)?).ok()?;
    Some((second, list))
}

impl Shelf for FileShelf<'_> {
    fn take(&self, alloc: Global, name: &'static str) -> Option<(u64, Vec<u8>)> {
        let path = self.path(alloc, name)?;
        let bytes = fs::read(self.rt, path.as_str()).ok()?;
        parted(alloc, bytes.as_slice())
    }

    fn put(&self, alloc: Global, name: &'static str, second: u64, bytes: &[u8]) {
        let Some(path) = self.path(alloc, name) else {
            return;
        };
        let mut text = Vec::new(alloc);
        if writeln!(text, "{second}").is_ok() && text.extend_from_slice(bytes).is_ok() {
            let _ = write_own(self.rt, path.as_str(), text.as_slice());
        }
    }

    fn whole(&self, alloc: Global, name: &'static str) -> Option<Vec<u8>> {
        let path = self.path(alloc, name)?;
        match fs::read(self.rt, path.as_str()) {
            Ok(bytes) => Some(bytes),
            Err(error) if error.kind() == ErrorKind::NotFound => Some(Vec::new(alloc)),
            Err(_) => None,
        }
    }

    fn add(&self, alloc: Global, name: &'static str, bytes: &[u8]) -> bool {
        let (Some(path), Some(mut text)) = (self.path(alloc, name), self.whole(alloc, name)) else {
            return false;
        };
        text.extend_from_slice(bytes).is_ok()
            && replace_own(self.rt, path.as_str(), text.as_slice()).is_ok()
    }

    fn append(&self, alloc: Global, name: &'static str, bytes: &[u8]) -> bool {
        match self.path(alloc, name) {
            Some(path) => append_own(self.rt, path.as_str(), bytes).is_ok(),
            None => false,
        }
    }

    fn forget(&self, name: &'static str) {
        if let Some(path) = self.path(self.rt.alloc(), name) {
            let _ = fs::remove_file(self.rt, path.as_str());
        }
    }
}
