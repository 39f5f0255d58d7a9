//! Makes a chain's tables with their first rows, all in one transaction.

ghost use Rattle.std.specs.Prelude.{◌≡◌, ◌≢◌, false, IfOk, OnOk, IfErr};
ghost use Rattle.sqlite.specs.Held.{state};
ghost use Rattle.sqlite.specs.Steps.{over_memory};
ghost use Rattle.sqlite.specs.State.{HasCleanDisk, Survives};
ghost use Rattle.sql_rows.specs.Books.{no_schema};
ghost use Rattle.sql_rows.specs.Causes.{IsReady};
ghost use Rattle.shop_schema.specs.Held.{AreValues};
ghost use Rattle.shop_schema.specs.Shop.{Holds};
ghost use Rattle.chain_requests.specs.Chains.{Rests};
ghost use Rattle.chain_files.specs.Making.{LeavesMade, books_with};

use crate::faults::{OpenFault, open_fault};
use shop_schema::create_tables;
use shop_store::opening::{put_opening, put_token};
use shop_types::Token;
use sql_files::has_no_table;
use sql_rows::{StoreFault, fault_of};
use sqlite::{Alter, Connection, MemStore, Transaction};
use std::alloc::Global;

/// The first rows in a new chain's tables.
#[derive(Clone, Copy)]
pub enum FirstRows<'a> {
    /// Head office's token, and no shared row.
    OfOffice(&'a Token),
    /// The opening rows.
    OfOpening,
}

/// Shows that the values of the first rows are in their ranges. The function has nothing to do: it is a law.
pub fn first_values(first: &FirstRows<'_>)
    ensures { AreValues (books_with first.now) }
{
    match *first {
        FirstRows::OfOffice(office) => {
            let _digits = office.as_bytes();
        }
        FirstRows::OfOpening => {}
    }
}

/// Makes the tables and the first rows inside a transaction.
fn fill<S: Alter>(tx: &mut Transaction<'_, S>, first: &FirstRows<'_>) -> Result<(), StoreFault>
    ensures same_reference { tx.new.conn.ghost_name ≡ tx.old.conn.ghost_name }
    ensures survives { Survives (state S.Store tx.old.conn.now) (state S.Store tx.new.conn.now) (λ _. ⊥) }
    ensures holds { HasCleanDisk (state S.Store tx.new.conn.now)
        → (state S.Store tx.old.conn.now).now.schema ≡ no_schema
        → OnOk result (Holds (state S.Store tx.new.conn.now) (books_with first.now)) }
{
    create_tables(tx)?;
    match *first {
        FirstRows::OfOffice(office) => put_token(tx, office),
        FirstRows::OfOpening => put_opening(tx),
    }
}

/// Makes the tables and the first rows in a database that has no table. Either all is made or nothing.
fn make<S: Alter>(conn: &mut Connection<S>, first: &FirstRows<'_>) -> Result<(), StoreFault>
    requires { conn.old.in_transaction ≡ false }
    ensures ended { conn.new.in_transaction ≡ false }
    ensures made { HasCleanDisk (state S.Store conn.new) → (state S.Store conn.old).now.schema ≡ no_schema
        → OnOk result (Rests (state S.Store conn.new) (books_with first.now)) }
    ensures crash { Survives (state S.Store conn.old) (state S.Store conn.new)
        (LeavesMade (state S.Store conn.old) (books_with first.now)) }
{
    let mut tx = conn.transaction();
    fill(&mut tx, first)?;
    match tx.commit() {
        Ok(()) => Ok(()),
        Err(error) => Err(fault_of(error)),
    }
}

/// Makes the tables and the first rows in a database that has no table. Either all is made or nothing. If the database
/// has a table, returns `Already` and doesn't touch it.
pub fn create<S: Alter>(conn: &mut Connection<S>, first: &FirstRows<'_>) -> Result<(), OpenFault>
    requires { conn.old.in_transaction ≡ false }
    ensures ended { conn.new.in_transaction ≡ false }
    ensures none { OnOk result ((state S.Store conn.old).now.schema ≡ no_schema) }
    ensures made { HasCleanDisk (state S.Store conn.new)
        → OnOk result (Rests (state S.Store conn.new) (books_with first.now)) }
    ensures there { IfErr result (λ e. e ≡ OpenFault.Already
        → ((state S.Store conn.old).now.schema ≢ no_schema) × (conn.new ≡ conn.old)) }
    ensures stopped { IfErr result (λ e. e ≢ OpenFault.Already → (state S.Store conn.old).now.schema ≡ no_schema) }
    ensures crash { Survives (state S.Store conn.old) (state S.Store conn.new)
        (LeavesMade (state S.Store conn.old) (books_with first.now)) }
    ensures chain { IfErr result (λ e. e ≢ OpenFault.NotAChain) }
    ensures version { IfErr result (λ e. e ≢ OpenFault.OtherVersion) }
    ensures damaged { IfErr result (λ e. e ≢ OpenFault.Damaged) }
{
    if !has_no_table(conn.schema()) {
        return Err(OpenFault::Already);
    }
    match make(conn, first) {
        Ok(()) => Ok(()),
        Err(fault) => Err(open_fault(fault)),
    }
}

/// Opens a database in memory with the tables and the first rows.
pub fn in_memory(alloc: Global, first: &FirstRows<'_>) -> Result<Connection<MemStore>, OpenFault>
    ensures ended { IfOk result (λ conn. conn.in_transaction ≡ false) }
    ensures made { IfOk result (λ conn. Rests (state over_memory conn) (books_with first.now)) }
    ensures ready { IfOk result (λ conn. IsReady (state over_memory conn)) }
    ensures fault { IfErr result (λ e. (e ≢ OpenFault.NotAChain) × (e ≢ OpenFault.OtherVersion)
        × (e ≢ OpenFault.Damaged) × (e ≢ OpenFault.Already)) }
{
    let Ok(mut conn) = Connection::open_in_memory(alloc) else {
        return Err(OpenFault::Memory);
    };
    match make(&mut conn, first) {
        Ok(()) => Ok(conn),
        Err(fault) => Err(open_fault(fault)),
    }
}
