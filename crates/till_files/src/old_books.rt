//! How a book that was made before it had tables beside the journal is opened in its files.

ghost use Rattle.std.specs.Prelude.{◌≡◌, ◌↔◌, false, IsTrue, IfOk, IfErr, OnOk};
ghost use Rattle.sqlite.specs.Held.{state};
ghost use Rattle.sqlite.specs.State.{HasCleanDisk};
ghost use Rattle.sqlite.specs.Steps.{over_memory};
ghost use Rattle.sql_rows.specs.Books.{no_schema};
ghost use Rattle.till_files.specs.Migrations.{first_schema};
ghost use Rattle.till_files.specs.Openings.{IsBookMigrated, IsNotMigrated};

use crate::faults::{BookFault, book_fault};
use crate::files::{close_book, connect};
use crate::migrating::fill;
use counter_routes::Routes;
use shop_schema::same_schema;
use sql_rows::{StoreFault, fault_of, make_tables};
use sqlite::{Alter, Connection, FileStore, Files, MemStore};
use sqlite_disk::Disk;
use sqlite_schema::schema::Schema;
use std::alloc::Global;

/// How the journal's tables were made in a book that had no other.
const FIRST_TEXTS: [&str; 3] = [
    "CREATE TABLE entry (number INT NOT NULL, request BLOB NOT NULL, PRIMARY KEY (number)) STRICT",
    "CREATE TABLE reply (number INT NOT NULL, status INTEGER NOT NULL, body BLOB NOT NULL, PRIMARY KEY (number)) STRICT",
    "CREATE TABLE settled (number INT NOT NULL, status INTEGER NOT NULL, body BLOB NOT NULL, PRIMARY KEY (number)) STRICT",
];

/// Makes the journal's tables alone in a database that has none.
fn make_first<S: Alter>(conn: &mut Connection<S>) -> Result<(), StoreFault>
    requires { conn.old.in_transaction ≡ false }
    ensures schema { HasCleanDisk (state S.Store conn.new) → (state S.Store conn.old).now.schema ≡ no_schema
        → OnOk result ((state S.Store conn.new).now.schema ≡ first_schema) }
{
    let mut tx = conn.transaction();
    make_tables(&mut tx, &FIRST_TEXTS)?;
    match tx.commit() {
        Ok(()) => Ok(()),
        Err(error) => Err(fault_of(error)),
    }
}

/// Makes an old book in memory, whose schema is the one to compare with.
fn first_tables(alloc: Global) -> Result<Connection<MemStore>, StoreFault>
    ensures { IfOk result (λ conn. (state over_memory conn).now.schema ≡ first_schema) }
{
    let mut conn = Connection::open_in_memory(alloc)?;
    make_first(&mut conn)?;
    Ok(conn)
}

/// Returns whether the schema of a database is an old book's. The database's store isn't called.
fn is_first(alloc: Global, schema: &Schema) -> Result<bool, StoreFault>
    ensures { IfOk result (λ is. IsTrue is ↔ (schema.now ≡ first_schema)) }
{
    let conn = first_tables(alloc)?;
    Ok(same_schema(schema, conn.schema()))
}

/// Opens a book that was made before it had tables beside the journal, and makes these: all of them or none. A fault
/// gives the files back: `NotABook` if they hold no such book, and `Memory`, `Size` or `Store` if the store can't do
/// its part. `Store` also says that a reply has no entry, or that an accepted entry is settled.
pub fn migrate_book<D: Disk + Drop>(
    alloc: Global,
    routes: &Routes,
    files: Files<D>,
) -> Result<Connection<FileStore<D>>, (BookFault, Files<D>)>
    ensures opened { IfOk result (λ conn. IsBookMigrated files conn) }
    ensures refused { IfErr result (λ e. IsNotMigrated D.Disk files e.0 e.1) }
{
    let mut conn = connect(alloc, files)?;
    match is_first(alloc, conn.schema()) {
        Ok(true) => match fill(alloc, routes, &mut conn) {
            Ok(()) => Ok(conn),
            Err(fault) => Err((book_fault(fault), close_book(conn))),
        },
        Ok(false) => Err((BookFault::NotABook, close_book(conn))),
        Err(fault) => Err((book_fault(fault), close_book(conn))),
    }
}
