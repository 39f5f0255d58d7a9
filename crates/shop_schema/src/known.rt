//! Whether a database has the tables of the shop.

ghost use Rattle.std.specs.Prelude.{◌≡◌, ◌↔◌, IsTrue, IfOk, map};
ghost use Rattle.std.specs.List.Sorted.{IsPermutation};
ghost use Rattle.sqlite.specs.Held.{state};
ghost use Rattle.sqlite.specs.Steps.{over_memory};
ghost use Rattle.sqlite.specs.State.{HasCleanDisk};
ghost use Rattle.sql_rows.specs.Calls.{StaysInside};
ghost use Rattle.sql_rows.specs.Rows.{columns_of};
ghost use Rattle.shop_schema.specs.Shop.{HasVersion, shop_schema, version_1_schema};
ghost use Rattle.shop_schema.specs.Versions.{version_of};

use crate::create::create_shop;
use crate::same_tables::{same_begun, same_first, same_schema};
use sql_rows::{StoreFault, number_at, query};
use sqlite::{Alter, Connection, MemStore, Row, Transaction};
use sqlite_schema::schema::Schema;
use std::alloc::Global;

/// Makes new tables in memory. Their schema is compared with other schemas.
fn new_tables(alloc: Global) -> Result<Connection<MemStore>, StoreFault>
    ensures { IfOk result (λ conn. (state over_memory conn).now.schema ≡ shop_schema) }
{
    let mut conn = Connection::open_in_memory(alloc)?;
    create_shop(&mut conn)?;
    Ok(conn)
}

/// Returns whether a database has the schema of the shop. The database's store isn't called.
pub fn is_shop(alloc: Global, schema: &Schema) -> Result<bool, StoreFault>
    ensures { IfOk result (λ is. IsTrue is ↔ (schema.now ≡ shop_schema)) }
{
    let conn = new_tables(alloc)?;
    Ok(same_schema(schema, conn.schema()))
}

/// Returns whether a database has the schema of version 1. The database's store isn't called.
pub fn is_first_shop(alloc: Global, schema: &Schema) -> Result<bool, StoreFault>
    ensures { IfOk result (λ is. IsTrue is ↔ (schema.now ≡ version_1_schema)) }
{
    let conn = new_tables(alloc)?;
    Ok(same_begun(schema, conn.schema(), 21, 36))
}

/// Returns whether the first table of a database is the one with the version, whatever the other tables are. The
/// database's store isn't called.
pub fn has_version(alloc: Global, schema: &Schema) -> Result<bool, StoreFault>
    ensures { IfOk result (λ is. IsTrue is ↔ HasVersion schema.now) }
{
    let conn = new_tables(alloc)?;
    Ok(same_first(schema, conn.schema()))
}

/// Reads the rows of the table with the version, in any order. Each row has only the version.
fn versions<S: Alter>(tx: &mut Transaction<'_, S>) -> Result<Vec<Row>, StoreFault>
    ensures read { HasCleanDisk (state S.Store tx.new.conn.now)
        → HasVersion (state S.Store tx.old.conn.now).now.schema
        → IfOk result (λ rows. IsPermutation (map (columns_of 1) ((state S.Store tx.old.conn.now).now.trees 0))
        rows.items) }
    ensures inside { StaysInside S.Store tx.old.conn tx.new.conn result }
{
    query(tx, "SELECT version FROM chain", &[])
}

/// The version of a chain's tables.
#[derive(Clone, Copy, PartialEq, Eq)]
pub enum KnownVersion {
    /// The table with the version has no row or several rows, so the database is no chain.
    Missing,
    /// Version 1. This program migrates it to its own version (`migrate_tables`), and doesn't open it.
    First,
    /// The version that this program reads and writes.
    This,
    /// Another version.
    Other,
}

/// Returns the version that the rows say.
fn told_by(rows: &[Row]) -> Result<KnownVersion, StoreFault>
    ensures { IfOk result (λ it. (found : _) → IsPermutation found rows.now → it ≡ version_of found) }
{
    if rows.len() != 1 {
        return Ok(KnownVersion::Missing);
    }
    match number_at(&rows[0], 0) {
        Ok(1) => Ok(KnownVersion::First),
        Ok(2) => Ok(KnownVersion::This),
        Ok(_) => Ok(KnownVersion::Other),
        Err(StoreFault::Failed) => Ok(KnownVersion::Other),
        Err(fault) => Err(fault),
    }
}

/// Returns the version of the tables in a database about which only `has_version` is known.
pub fn version<S: Alter>(tx: &mut Transaction<'_, S>) -> Result<KnownVersion, StoreFault>
    ensures read { HasCleanDisk (state S.Store tx.new.conn.now) → HasVersion (state S.Store tx.old.conn.now).now.schema
        → IfOk result (λ it. it ≡ version_of (map (columns_of 1) ((state S.Store tx.old.conn.now).now.trees 0))) }
    ensures inside { StaysInside S.Store tx.old.conn tx.new.conn result }
{
    let rows = versions(tx)?;
    told_by(rows.as_slice())
}
