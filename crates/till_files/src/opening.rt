//! Opens a book in its files.

ghost use Rattle.std.specs.Prelude.{◌≡◌, ◌↔◌, IsTrue, IfOk, IfErr};
ghost use Rattle.sqlite.specs.Held.{state};
ghost use Rattle.sqlite.specs.Steps.{over_memory};
ghost use Rattle.till_book.specs.Tables.{book_schema};
ghost use Rattle.till_files.specs.Openings.{IsBookOpened, IsNotOpened};

use crate::creation::make;
use crate::faults::{BookFault, book_fault};
use crate::files::{close_book, connect};
use shop_schema::same_schema;
use sql_rows::StoreFault;
use sqlite::{Connection, FileStore, Files, MemStore};
use sqlite_disk::Disk;
use sqlite_schema::schema::Schema;
use std::alloc::Global;

/// Makes a new book in memory. Its schema is the one to compare with.
fn new_tables(alloc: Global) -> Result<Connection<MemStore>, StoreFault>
    ensures { IfOk result (λ conn. (state over_memory conn).now.schema ≡ book_schema) }
{
    let mut conn = Connection::open_in_memory(alloc)?;
    make(&mut conn)?;
    Ok(conn)
}

/// Returns whether the schema of a database is a book's. The database's store isn't called.
fn is_book(alloc: Global, schema: &Schema) -> Result<bool, StoreFault>
    ensures { IfOk result (λ is. IsTrue is ↔ (schema.now ≡ book_schema)) }
{
    let conn = new_tables(alloc)?;
    Ok(same_schema(schema, conn.schema()))
}

/// Opens the book that the files hold. Returns the files if it fails: with `NotABook` if the files hold no book, and
/// with `Memory`, `Size` or `Store` if the store failed. What the files hold stays.
pub fn open_book<D: Disk + Drop>(
    alloc: Global,
    files: Files<D>,
) -> Result<Connection<FileStore<D>>, (BookFault, Files<D>)>
    ensures opened { IfOk result (λ conn. IsBookOpened files conn) }
    ensures refused { IfErr result (λ e. IsNotOpened D.Disk files e.0 e.1) }
{
    let conn = connect(alloc, files)?;
    match is_book(alloc, conn.schema()) {
        Ok(true) => Ok(conn),
        Ok(false) => Err((BookFault::NotABook, close_book(conn))),
        Err(fault) => Err((book_fault(fault), close_book(conn))),
    }
}
