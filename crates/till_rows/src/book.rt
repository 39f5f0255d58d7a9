//! Types words at a till's book in files in memory.
use crate::kit::Kit;
use crate::line::Counter;
use crate::word::{Typist, type_at};
use crate::world::World;
use row_player::{Calls, Fault, Image, InMemory, NEVER, Texts, crash, disks};
use sqlite::{Alter, Connection, FileStore, Files};
use std::alloc::{AllocError, Global};
use std::marker::Model;
use std::mem;
use till_book::{BookReply, BookRows, read_book};
use till_files::{close_book, create_book, open_book, restart_book};

pub const NO_BOOK: Fault = Fault::Line("no book is opened");

/// Closes the connection. Returns what the files hold then, all of it in the database's own file.
pub fn closed<D: InMemory>(alloc: Global, conn: Connection<FileStore<D>>) -> Result<Image, Fault> {
    match conn.close_files() {
        Ok(files) => {
            let image = Image::of(alloc, &files);
            drop(files);
            Ok(image)
        }
        Err((_, store)) => {
            drop(store);
            Err(Fault::Line("the log isn't copied"))
        }
    }
}

/// Returns what the files of a new book hold.
pub fn new_book<D: InMemory>(alloc: Global) -> Result<Image, Fault> {
    match create_book::<D>(alloc, disks(alloc, &Image::new(alloc), NEVER)) {
        Ok(conn) => closed(alloc, conn),
        Err((_, files)) => {
            drop(files);
            Err(NO_BOOK)
        }
    }
}

/// Opens the book that the files hold, if there is one. Returns also how often the files' disks crashed.
fn opened<D: InMemory>(alloc: Global, files: Files<D>) -> (Option<Connection<FileStore<D>>>, u32) {
    match open_book(alloc, files) {
        Ok(conn) => (Some(conn), 0),
        Err((_, mut files)) => {
            crash(&mut files);
            (open_book(alloc, files).ok(), 1)
        }
    }
}

/// Opens the book that the image has, if it has one.
fn book_of<D: InMemory>(alloc: Global, image: &Image) -> Option<Connection<FileStore<D>>> {
    open_book(alloc, disks(alloc, image, NEVER)).ok()
}

/// Closes the book. Returns what its files hold then, also what wasn't synced.
fn left<D: InMemory>(alloc: Global, conn: Connection<FileStore<D>>) -> Image {
    let files = close_book(conn);
    let image = Image::of(alloc, &files);
    drop(files);
    image
}

/// Stops the book and opens it again. If `loses`, the book loses what wasn't synced.
fn stopped<D: InMemory>(
    alloc: Global,
    conn: Connection<FileStore<D>>,
    loses: bool,
) -> Option<Connection<FileStore<D>>> {
    if loses {
        return restart_book(alloc, conn).ok();
    }
    let image = left(alloc, conn);
    book_of(alloc, &image)
}

fn put_reply(text: &mut Vec<u8>, reply: &BookReply) -> Result<(), AllocError> {
    text.extend_from_slice(&reply.status.to_be_bytes())?;
    text.extend_from_slice(reply.body.as_slice())
}

/// Puts the requests, and the replies.
fn put_entries(text: &mut Vec<u8>, rows: &BookRows) -> Result<(), AllocError> {
    for entry in rows.entries.as_slice() {
        text.extend_from_slice(entry.request.as_slice())?;
    }
    for reply in rows.replies.as_slice() {
        put_reply(text, reply)?;
    }
    Ok(())
}

/// Puts all rows. Settlements come last, with their entries' numbers.
fn put_rows(text: &mut Vec<u8>, rows: &BookRows) -> Result<(), AllocError> {
    put_entries(text, rows)?;
    for it in rows.settled.as_slice() {
        text.extend_from_slice(&it.number.to_be_bytes())?;
        put_reply(text, &it.reply)?;
    }
    Ok(())
}

/// Puts all rows of the book.
fn put_book<S: Alter>(
    alloc: Global,
    conn: &mut Connection<S>,
    text: &mut Vec<u8>,
) -> Result<(), Fault> {
    if !conn.is_autocommit() {
        return Err(NO_BOOK);
    }
    match read_book(alloc, conn) {
        Ok(rows) => {
            let is_put = put_rows(text, &rows);
            drop(rows);
            Ok(is_put?)
        }
        Err(_) => Err(NO_BOOK),
    }
}

/// A till's book, open if it could be opened.
#[derive(Drop)]
pub struct Book<D: InMemory> {
    alloc: Global,
    conn: Option<Connection<FileStore<D>>>,
    /// Whether a stop loses what wasn't synced.
    loses: bool,
    /// How many bytes all rows of the book had after the last word.
    size: usize,
    /// The last copy of the book's files.
    copy: Image,
    /// How often the book's disk has failed.
    stops: u32,
}

/// The model is trivial, as for `Days`.
impl<D: InMemory> Model for Book<D> {
    ghost use Rattle.std.specs.Prelude.{⊤};

    ghost Value = { ⊤ };

    ghost view = { λ _. tt };
}

impl<D: InMemory> Book<D> {
    /// Opens the image's book, on disks that fail after so many calls.
    pub fn new(alloc: Global, image: &Image, calls: Calls, loses: bool) -> Book<D> {
        let (conn, stops) = opened(alloc, disks(alloc, image, calls));
        Book {
            alloc,
            conn,
            loses,
            size: 0,
            copy: Image::new(alloc),
            stops,
        }
    }

    /// Returns how often the book's disk has failed.
    pub fn stops(&self) -> u32 {
        self.stops
    }

    /// Counts the bytes of all rows of the book, if the book can be read.
    fn count(&mut self) -> Option<usize> {
        let mut text = Vec::new(self.alloc);
        match self.put_text(&mut text) {
            Ok(()) => Some(text.len()),
            Err(_) => None,
        }
    }

    /// Types the words at the open book. Returns false if the book's disk has failed.
    fn does<C: Counter>(
        &mut self,
        world: &World,
        kit: &Kit<C>,
        typist: Typist,
        words: &str,
        told: &mut Texts,
    ) -> Result<bool, Fault> {
        let alloc = self.alloc;
        match &mut self.conn {
            Some(conn) => type_at(alloc, world, kit, conn, typist, words, told),
            None => Err(NO_BOOK),
        }
    }

    /// Stops the book, and opens it anew.
    fn restart(&mut self) -> Result<(), Fault> {
        self.stops = self.stops.saturating_add(1);
        let (alloc, loses) = (self.alloc, self.loses);
        let Some(conn) = self.conn.take() else {
            return Err(NO_BOOK);
        };
        let again = stopped(alloc, conn, loses);
        drop(mem::replace(&mut self.conn, again));
        Ok(())
    }

    /// Types the words. Returns whether the book's disk still works after them.
    fn tries<C: Counter>(
        &mut self,
        world: &World,
        kit: &Kit<C>,
        typist: Typist,
        words: &str,
        told: &mut Texts,
    ) -> Result<bool, Fault> {
        let is_heard = self.does(world, kit, typist, words, told)?;
        match self.count() {
            Some(size) if is_heard => {
                self.size = size;
                Ok(true)
            }
            _ => Ok(false),
        }
    }

    /// Opens the book anew after its disk failed at the words. If the book has no new row, types them again. If it has
    /// one, types `send`, and the outcome of the words isn't heard. Returns whether the outcome was heard.
    fn tries_again<C: Counter>(
        &mut self,
        world: &World,
        kit: &Kit<C>,
        typist: Typist,
        words: &str,
        told: &mut Texts,
    ) -> Result<bool, Fault> {
        let before = self.size;
        self.restart()?;
        if self.count() == Some(before) {
            return self.tries(world, kit, typist, words, told);
        }
        match self.tries(world, kit, Typist::Till, "send", told) {
            Ok(_) => Ok(false),
            Err(fault) => Err(fault),
        }
    }

    /// Types the words, also if the book's disk fails, and puts what is printed into `told`. Returns whether the outcome
    /// was heard.
    pub fn types<C: Counter>(
        &mut self,
        world: &World,
        kit: &Kit<C>,
        typist: Typist,
        words: &str,
        told: &mut Texts,
    ) -> Result<bool, Fault> {
        let again = typist;
        match self.tries(world, kit, typist, words, told) {
            Ok(false) => self.tries_again(world, kit, again, words, told),
            heard => heard,
        }
    }

    /// Puts all rows of the book.
    pub fn put_text(&mut self, text: &mut Vec<u8>) -> Result<(), Fault> {
        let alloc = self.alloc;
        match &mut self.conn {
            Some(conn) => put_book(alloc, conn, text),
            None => Err(NO_BOOK),
        }
    }

    /// Copies the book's files, and opens the book again.
    pub fn copies(&mut self) -> Result<(), Fault> {
        let alloc = self.alloc;
        let Some(conn) = self.conn.take() else {
            return Err(NO_BOOK);
        };
        self.copy = left(alloc, conn);
        self.puts_back()
    }

    /// Replaces the book by the copy.
    pub fn puts_back(&mut self) -> Result<(), Fault> {
        let conn = book_of(self.alloc, &self.copy);
        drop(mem::replace(&mut self.conn, conn));
        match self.count() {
            Some(size) => {
                self.size = size;
                Ok(())
            }
            None => Err(NO_BOOK),
        }
    }
}
