//! How the tables of version 1 are made, with the first rows of a chain: as its program made them, for whoever has to
//! have such tables.

ghost use Rattle.std.specs.Prelude.{◌≡◌, OnOk, false};
ghost use Rattle.sqlite.specs.Held.{state};
ghost use Rattle.sqlite.specs.State.{HasCleanDisk, Survives};
ghost use Rattle.sql_rows.specs.Books.{no_schema};
ghost use Rattle.shop_schema.specs.Shop.{
  IsFirstShop,
  IsFirstKeyed,
  HaveNoFirstRows,
  HoldsVersion1,
  IsNewFirst,
  LeavesNewFirst,
  first_books,
};

use crate::tables::TEXTS;
use shop_types::Token;
use sql_rows::{StoreFault, execute, fault_of, make_tables};
use sqlite::types::ValueRef;
use sqlite::{Alter, Connection, Transaction};

/// How many of the texts make version 1, which come first.
const FIRST: usize = 31;

/// Makes the tables of version 1, with no rows, in a database that has none.
fn create_first_tables<S: Alter>(tx: &mut Transaction<'_, S>) -> Result<(), StoreFault>
    ensures same_reference { tx.new.conn.ghost_name ≡ tx.old.conn.ghost_name }
    ensures made { HasCleanDisk (state S.Store tx.new.conn.now) → (state S.Store tx.old.conn.now).now.schema ≡ no_schema
        → OnOk result (IsFirstShop (state S.Store tx.new.conn.now) × IsFirstKeyed (state S.Store tx.new.conn.now)
        × HaveNoFirstRows (state S.Store tx.new.conn.now).now.trees) }
    ensures survives { Survives (state S.Store tx.old.conn.now) (state S.Store tx.new.conn.now) (λ _. ⊥) }
{
    make_tables(tx, &TEXTS[..FIRST])?;
    Ok(())
}

const FIRST_CHAIN: &str = "INSERT INTO chain (version, office_token) VALUES (1, ?1)";

const FIRST_COUNT: &str = "INSERT INTO counter (caller, kind, last) VALUES (0, 4, 0)";

/// Makes the tables of version 1, with head office's token and its count, in a database that has no table.
fn fill_first<S: Alter>(tx: &mut Transaction<'_, S>, office: &Token) -> Result<(), StoreFault>
    ensures same_reference { tx.new.conn.ghost_name ≡ tx.old.conn.ghost_name }
    ensures survives { Survives (state S.Store tx.old.conn.now) (state S.Store tx.new.conn.now) (λ _. ⊥) }
    ensures holds { HasCleanDisk (state S.Store tx.new.conn.now)
        → (state S.Store tx.old.conn.now).now.schema ≡ no_schema
        → OnOk result (HoldsVersion1 (state S.Store tx.new.conn.now) (first_books office.now)) }
{
    create_first_tables(tx)?;
    execute(tx, FIRST_CHAIN, &[ValueRef::Text(office.as_bytes())])?;
    execute(tx, FIRST_COUNT, &[])
}

/// Makes the tables of version 1, with head office's token and no other row of a chain. The database has no table
/// before. Commits all of it or nothing. This program doesn't open such a chain; it makes one of its own of
/// it (`migrate_tables`).
pub fn create_first<S: Alter>(conn: &mut Connection<S>, office: &Token) -> Result<(), StoreFault>
    requires { conn.old.in_transaction ≡ false }
    ensures ended { conn.new.in_transaction ≡ false }
    ensures made { HasCleanDisk (state S.Store conn.new) → (state S.Store conn.old).now.schema ≡ no_schema
        → OnOk result (IsNewFirst (state S.Store conn.new) (first_books office.now)) }
    ensures crash { Survives (state S.Store conn.old) (state S.Store conn.new)
        (LeavesNewFirst (state S.Store conn.old) (first_books office.now)) }
{
    let mut tx = conn.transaction();
    fill_first(&mut tx, office)?;
    match tx.commit() {
        Ok(()) => Ok(()),
        Err(error) => Err(fault_of(error)),
    }
}
