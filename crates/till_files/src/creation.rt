//! Makes a book in two files that hold no table.

ghost use Rattle.std.specs.Prelude.{◌≡◌, ◌≢◌, false, IfOk, OnOk, IfErr};
ghost use Rattle.sqlite.specs.Held.{state};
ghost use Rattle.sqlite.specs.State.{HasCleanDisk, Survives};
ghost use Rattle.sql_rows.specs.Books.{no_schema};
ghost use Rattle.till_book.specs.Tables.{book_schema};
ghost use Rattle.till_book.specs.Steps.{Rests};
ghost use Rattle.till_files.specs.Files.{LeavesMade, empty_journal};
ghost use Rattle.till_files.specs.Openings.{IsBookMade, IsNotMade};

use crate::faults::{BookFault, book_fault};
use crate::files::{close_book, connect};
use sql_files::has_no_table;
use sql_rows::{StoreFault, fault_of};
use sqlite::{Alter, Connection, FileStore, Files};
use sqlite_disk::Disk;
use std::alloc::Global;
use till_book::make_journal;

/// Makes the journal's tables in a database that has none: both or neither.
pub fn make<S: Alter>(conn: &mut Connection<S>) -> Result<(), StoreFault>
    requires { conn.old.in_transaction ≡ false }
    ensures ended { conn.new.in_transaction ≡ false }
    ensures made { HasCleanDisk (state S.Store conn.new) → (state S.Store conn.old).now.schema ≡ no_schema
        → OnOk result (Rests (state S.Store conn.new) empty_journal) }
    ensures schema { HasCleanDisk (state S.Store conn.new) → (state S.Store conn.old).now.schema ≡ no_schema
        → OnOk result ((state S.Store conn.new).now.schema ≡ book_schema) }
    ensures crash { Survives (state S.Store conn.old) (state S.Store conn.new) (LeavesMade (state S.Store conn.old)) }
{
    let mut tx = conn.transaction();
    make_journal(&mut tx)?;
    match tx.commit() {
        Ok(()) => Ok(()),
        Err(error) => Err(fault_of(error)),
    }
}

/// Makes an empty book in a database without a table. Fails with `Already` if the database has a table, and then
/// changes nothing.
fn create<S: Alter>(conn: &mut Connection<S>) -> Result<(), BookFault>
    requires { conn.old.in_transaction ≡ false }
    ensures ended { conn.new.in_transaction ≡ false }
    ensures none { OnOk result ((state S.Store conn.old).now.schema ≡ no_schema) }
    ensures made { HasCleanDisk (state S.Store conn.new) → OnOk result (Rests (state S.Store conn.new) empty_journal) }
    ensures there { IfErr result (λ e. e ≡ BookFault.Already
        → ((state S.Store conn.old).now.schema ≢ no_schema) × (conn.new ≡ conn.old)) }
    ensures stopped { IfErr result (λ e. e ≢ BookFault.Already → (state S.Store conn.old).now.schema ≡ no_schema) }
    ensures crash { Survives (state S.Store conn.old) (state S.Store conn.new) (LeavesMade (state S.Store conn.old)) }
    ensures book { IfErr result (λ e. e ≢ BookFault.NotABook) }
{
    if !has_no_table(conn.schema()) {
        return Err(BookFault::Already);
    }
    match make(conn) {
        Ok(()) => Ok(()),
        Err(fault) => Err(book_fault(fault)),
    }
}

/// Makes an empty book in files that hold no table. Returns the files if it fails. It fails with `Already` if the files
/// hold tables, and the tables stay as they are. It fails with `Memory`, `Size` or `Store` if the store failed, and
/// then the files hold no table, or the whole book without an entry.
pub fn create_book<D: Disk + Drop>(
    alloc: Global,
    files: Files<D>,
) -> Result<Connection<FileStore<D>>, (BookFault, Files<D>)>
    ensures made { IfOk result (λ conn. IsBookMade files conn) }
    ensures refused { IfErr result (λ e. IsNotMade D.Disk files e.0 e.1) }
{
    let mut conn = connect(alloc, files)?;
    match create(&mut conn) {
        Ok(()) => Ok(conn),
        Err(fault) => Err((fault, close_book(conn))),
    }
}
