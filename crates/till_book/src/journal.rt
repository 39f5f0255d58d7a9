//! The book's tables inside a transaction: how they are made, and the statements that add rows.

ghost use Rattle.std.specs.Prelude.{◌≡◌, [], ◌∷◌, OnOk, IfOk};
ghost use Rattle.sqlite.specs.Held.{state};
ghost use Rattle.sqlite.specs.State.{HasCleanDisk, Survives, KeepsCommit};
ghost use Rattle.sql_rows.specs.Books.{no_schema};
ghost use Rattle.sql_rows.specs.Calls.{DoesInside};
ghost use Rattle.till_book.specs.Tables.{entry_table, reply_table, settled_table, unsure_table, rented_table, returned_table};
ghost use Rattle.till_book.specs.Journal.{IsEmptyJournal, FindsEntry, HasBytes, entry_columns, reply_columns, unsure_columns, rented_columns, returned_columns};
ghost use Rattle.till_book.specs.Statements.{Adds, DropsUnsure};

use shop_types::{CopyNo, CustomerNo, RentalNo};
use sql_rows::{Bytes, StoreFault, bytes_at, execute, make_tables, query};
use sqlite::types::ToSql;
use sqlite::{Alter, Row, Transaction};

/// How the tables are made, and the one index that no key asks for.
const TEXTS: [&str; 7] = [
    "CREATE TABLE entry (number INT NOT NULL, request BLOB NOT NULL, PRIMARY KEY (number)) STRICT",
    "CREATE TABLE reply (number INT NOT NULL, status INTEGER NOT NULL, body BLOB NOT NULL, PRIMARY KEY (number)) STRICT",
    "CREATE TABLE settled (number INT NOT NULL, status INTEGER NOT NULL, body BLOB NOT NULL, PRIMARY KEY (number)) STRICT",
    "CREATE TABLE unsure (number INT NOT NULL, PRIMARY KEY (number)) STRICT",
    "CREATE TABLE rented (copy INTEGER NOT NULL, number INTEGER NOT NULL, rental INTEGER NOT NULL, customer INTEGER NOT NULL, PRIMARY KEY (copy, number)) STRICT",
    "CREATE TABLE returned (rental INTEGER NOT NULL, number INTEGER NOT NULL, PRIMARY KEY (rental, number)) STRICT",
    "CREATE INDEX rented_as ON rented (rental, number)",
];

/// Makes the book's tables, with no rows, in a database that has none. Nothing is committed.
pub fn make_journal<S: Alter>(tx: &mut Transaction<'_, S>) -> Result<(), StoreFault>
    ensures same_reference { tx.new.conn.ghost_name ≡ tx.old.conn.ghost_name }
    ensures made { HasCleanDisk (state S.Store tx.new.conn.now) → (state S.Store tx.old.conn.now).now.schema ≡ no_schema
        → OnOk result (IsEmptyJournal (state S.Store tx.new.conn.now)) }
    ensures kept { HasCleanDisk (state S.Store tx.new.conn.now)
        → KeepsCommit (state S.Store tx.old.conn.now) (state S.Store tx.new.conn.now) }
    ensures survives { Survives (state S.Store tx.old.conn.now) (state S.Store tx.new.conn.now) (λ _. ⊥) }
{
    make_tables(tx, &TEXTS)?;
    Ok(())
}

const INSERT_ENTRY: &str = "INSERT INTO entry (number, request) VALUES (?1, ?2)";

/// Adds an entry.
pub fn add_entry<S: Alter>(
    tx: &mut Transaction<'_, S>,
    number: u32,
    request: &[u8],
) -> Result<(), StoreFault>
    ensures { DoesInside S.Store tx.old.conn tx.new.conn result
        (λ _. Adds entry_table 2 (entry_columns (number, request.now))) }
{
    execute(tx, INSERT_ENTRY, &[number.to_sql(), request.to_sql()])
}

const INSERT_REPLY: &str = "INSERT INTO reply (number, status, body) VALUES (?1, ?2, ?3)";

/// Adds a reply.
pub fn add_reply<S: Alter>(
    tx: &mut Transaction<'_, S>,
    number: u32,
    status: u32,
    body: &[u8],
) -> Result<(), StoreFault>
    ensures { DoesInside S.Store tx.old.conn tx.new.conn result
        (λ _. Adds reply_table 3 (reply_columns (number, record { status = status; body = body.now }))) }
{
    execute(
        tx,
        INSERT_REPLY,
        &[number.to_sql(), status.to_sql(), body.to_sql()],
    )
}

const INSERT_SETTLED: &str = "INSERT INTO settled (number, status, body) VALUES (?1, ?2, ?3)";

/// Adds the reply that settles the entry of that number.
pub fn add_settled<S: Alter>(
    tx: &mut Transaction<'_, S>,
    number: u32,
    status: u32,
    body: &[u8],
) -> Result<(), StoreFault>
    ensures { DoesInside S.Store tx.old.conn tx.new.conn result
        (λ _. Adds settled_table 3 (reply_columns (number, record { status = status; body = body.now }))) }
{
    execute(
        tx,
        INSERT_SETTLED,
        &[number.to_sql(), status.to_sql(), body.to_sql()],
    )
}

const INSERT_UNSURE: &str = "INSERT INTO unsure (number) VALUES (?1)";

/// Adds the entry of that number to the unsure ones.
pub fn add_unsure<S: Alter>(tx: &mut Transaction<'_, S>, number: u32) -> Result<(), StoreFault>
    ensures { DoesInside S.Store tx.old.conn tx.new.conn result
        (λ _. Adds unsure_table 1 (unsure_columns number)) }
{
    execute(tx, INSERT_UNSURE, &[number.to_sql()])
}

const DELETE_UNSURE: &str = "DELETE FROM unsure WHERE number = ?1";

/// Takes the entry of that number from the unsure ones, if it is one of them.
pub fn drop_unsure<S: Alter>(tx: &mut Transaction<'_, S>, number: u32) -> Result<(), StoreFault>
    ensures { DoesInside S.Store tx.old.conn tx.new.conn result (λ _. DropsUnsure number) }
{
    execute(tx, DELETE_UNSURE, &[number.to_sql()])
}

const INSERT_RENTED: &str =
    "INSERT INTO rented (copy, number, rental, customer) VALUES (?1, ?2, ?3, ?4)";

/// Adds the accepted rent of the entry of that number.
pub fn add_rented<S: Alter>(
    tx: &mut Transaction<'_, S>,
    number: u32,
    copy: CopyNo,
    rental: RentalNo,
    customer: CustomerNo,
) -> Result<(), StoreFault>
    ensures { DoesInside S.Store tx.old.conn tx.new.conn result
        (λ _. Adds rented_table 4
        (rented_columns (record { copy = copy; number = number; rental = rental; customer = customer }))) }
{
    execute(
        tx,
        INSERT_RENTED,
        &[
            copy.get().to_sql(),
            number.to_sql(),
            rental.get().to_sql(),
            customer.get().to_sql(),
        ],
    )
}

const INSERT_RETURNED: &str = "INSERT INTO returned (rental, number) VALUES (?1, ?2)";

/// Adds the accepted return of the entry of that number.
pub fn add_returned<S: Alter>(
    tx: &mut Transaction<'_, S>,
    number: u32,
    rental: RentalNo,
) -> Result<(), StoreFault>
    ensures { DoesInside S.Store tx.old.conn tx.new.conn result
        (λ _. Adds returned_table 2 (returned_columns (record { rental = rental; number = number }))) }
{
    execute(
        tx,
        INSERT_RETURNED,
        &[rental.get().to_sql(), number.to_sql()],
    )
}

const SELECT_ENTRY: &str = "SELECT request FROM entry WHERE number = ?1";

/// Returns the bytes in the first row.
fn first_bytes(rows: &[Row]) -> Result<Option<Bytes>, StoreFault>
    ensures { IfOk result (λ it. HasBytes it rows.now) }
{
    match rows.first() {
        None => Ok(None),
        Some(row) => Ok(Some(bytes_at(row, 0)?)),
    }
}

/// Returns the request of that number, if there is one.
pub fn entry_at<S: Alter>(
    tx: &mut Transaction<'_, S>,
    number: u32,
) -> Result<Option<Bytes>, StoreFault>
    ensures { DoesInside S.Store tx.old.conn tx.new.conn result (λ it. FindsEntry number it) }
{
    let rows = query(tx, SELECT_ENTRY, &[number.to_sql()])?;
    first_bytes(rows.as_slice())
}
