//! A book that is open, with what a word needs beside it.

ghost use Rattle.std.specs.Prelude.{◌≡◌, ◌↔◌, false, string_bytes, None, IfOk, IfSome, IsTrue};
ghost use Rattle.sqlite.specs.Files.{file_state};
ghost use Rattle.sqlite.specs.State.{HasCleanDisk};
ghost use Rattle.till_book.specs.Steps.{Stays};
ghost use Rattle.till_program.specs.Lines.{IsNotBegun};
ghost use Rattle.till_program.specs.Performing.{IsOpened, IsFound};

use crate::files::{is_asked_for, is_there, open_at, unask};
use crate::init::settings_of;
use crate::zones::rules_for;
use counter_routes::Routes;
use jiff_tz::TimeZoneDatabase;
use sqlite::{Connection, FileStore};
use sqlite_std_file::File;
use till_book::read_end;
use till_cashier::TillFault;
use till_files::close_book;
use till_requests::Settings;

/// What a word needs beside the open book: its file's name, its settings, the server's own reader of requests, and the
/// rules of its zone.
#[derive(Drop)]
pub(crate) struct Tools {
    pub(crate) name: String,
    pub(crate) settings: Settings,
    pub(crate) routes: Routes,
    /// The rules of the till's zone, if the system has them.
    pub(crate) rules: TimeZoneDatabase,
}

/// An open book. No other process can open the book until it is closed.
#[derive(Drop)]
pub struct OpenBook {
    pub(crate) tools: Tools,
    pub(crate) conn: Connection<FileStore<File>>,
}

/// Reads the settings of the book of that name, and makes what a word needs beside them.
pub(crate) fn tools_of(rt: &HostRuntime, name: &str) -> Result<Tools, TillFault>
    ensures { IfOk result (λ tools. string_bytes tools.name ≡ name.now) }
{
    if !is_there(rt, name) {
        return Err(TillFault::NoBook);
    }
    let settings = settings_of(rt, name)?;
    let Ok(routes) = Routes::new(rt.alloc()) else {
        return Err(TillFault::Memory);
    };
    let rules = rules_for(rt, &settings.zone)?;
    Ok(Tools {
        name: String::from_str(rt.alloc(), name)?,
        settings,
        routes,
        rules,
    })
}

impl OpenBook {
    /// Opens the book of that name with its own settings.
    fn open(rt: &HostRuntime, name: &str) -> Result<OpenBook, TillFault>
        ensures { IfOk result (IsOpened name.now) }
    {
        let tools = tools_of(rt, name)?;
        let conn = open_at(rt, &tools.routes, name)?;
        Ok(OpenBook { tools, conn })
    }

    /// Returns the server's address, as the book's settings have it.
    pub fn address(&self) -> &str {
        self.tools.settings.address.as_str()
    }

    /// Tests whether an entry of the book waits for its reply. In a book that can't be read none does.
    pub(crate) fn has_waiting(&mut self) -> bool
        requires { self.old.conn.in_transaction ≡ false }
        ensures ended { self.new.conn.in_transaction ≡ false }
        ensures tools { self.new.tools ≡ self.old.tools }
        ensures stays { HasCleanDisk (file_state self.new.conn)
            → Stays (file_state self.old.conn) (file_state self.new.conn) }
    {
        match read_end(&mut self.conn) {
            Ok(end) => end.replies < end.entries,
            Err(_) => false,
        }
    }

    /// Closes the book: another window may have it.
    pub(crate) fn close(self) {
        let OpenBook { tools, conn } = self;
        drop(tools);
        drop(close_book(conn));
    }

    /// Tests whether another window asks for the book, and takes that back.
    fn is_asked_for(&self, rt: &HostRuntime) -> bool {
        let name = self.tools.name.as_str();
        let is_asked = is_asked_for(rt, name);
        if is_asked {
            unask(rt, name);
        }
        is_asked
    }

    /// Tests whether it is the book of that name.
    fn is_named(&self, name: &str) -> bool
        ensures { IsTrue result ↔ string_bytes self.now.tools.name ≡ name.now }
    {
        self.tools.name.as_str() == name
    }
}

/// Closes the book that is held, if one is.
pub fn close_held(held: &mut Option<OpenBook>)
    ensures { held.new ≡ None }
{
    if let Some(book) = held.take() {
        book.close();
    }
}

/// Closes the book that is held, if another window asks for it.
pub fn close_if_asked(rt: &HostRuntime, held: &mut Option<OpenBook>)
    requires { IfSome held.old (λ book. book.conn.in_transaction ≡ false) }
    ensures ended { IfSome held.new (λ book. book.conn.in_transaction ≡ false) }
    ensures closed { IsNotBegun held.old held.new }
{
    let is_asked = match held {
        Some(book) => book.is_asked_for(rt),
        None => false,
    };
    if is_asked {
        close_held(held);
    }
}

/// Returns the book of that name: the one that is held, or else it is opened. A book of another name is closed first.
/// None is held after that.
pub(crate) fn opened(
    rt: &HostRuntime,
    name: &str,
    held: &mut Option<OpenBook>,
) -> Result<OpenBook, TillFault>
    requires { IfSome held.old (λ book. book.conn.in_transaction ≡ false) }
    ensures ended { IfOk result (λ book. book.conn.in_transaction ≡ false) }
    ensures found { IfOk result (IsFound name.now held.old) }
    ensures taken { held.new ≡ None }
{
    let Some(book) = held.take() else {
        return OpenBook::open(rt, name);
    };
    if book.is_named(name) {
        return Ok(book);
    }
    book.close();
    OpenBook::open(rt, name)
}
