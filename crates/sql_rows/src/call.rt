//! Calls inside a transaction.

ghost use Rattle.std.specs.Prelude.{◌≡◌, ℕ, Ok, Err, false, IfOk, IfErr, OnOk};
ghost use Rattle.sqlite.specs.Held.{state};
ghost use Rattle.sqlite.specs.State.{HasCleanDisk, ExecutesInside, Shown};
ghost use Rattle.sqlite.specs.Values.{bound};
ghost use Rattle.sql_rows.specs.Calls.{StaysInside};
ghost use Rattle.sql_rows.specs.Fault.{IsToldOf, QueryGave, StatementGave};

use crate::fault::{StoreFault, fault_of};
use sqlite::types::ValueRef;
use sqlite::{Alter, Row, Transaction};

/// Returns the rows that a query shows. The kind of a fault reports the error that the database gave the query. After
/// a fault the transaction may be rolled back.
pub fn query<S: Alter>(
    tx: &mut Transaction<'_, S>,
    text: &str,
    params: &[ValueRef<'_>],
) -> Result<Vec<Row>, StoreFault>
    ensures inside { StaysInside S.Store tx.old.conn tx.new.conn result }
    ensures shown { HasCleanDisk (state S.Store tx.new.conn.now)
        → IfOk result (λ rows. Shown text.now (bound params.now) (state S.Store tx.old.conn.now)
        (state S.Store tx.new.conn.now) rows.items) }
    ensures told { HasCleanDisk (state S.Store tx.new.conn.now)
        → IfErr result (IsToldOf
        (QueryGave text.now (bound params.now) (state S.Store tx.old.conn.now) (state S.Store tx.new.conn.now))) }
{
    match tx.query_all(text, params) {
        Ok(rows) => Ok(rows),
        Err(error) => Err(fault_of(error)),
    }
}

/// Runs a statement that shows no rows. A fault tells by its kind the error that the database gave the statement;
/// after it the transaction may be rolled back. When the transaction has ended, nothing is run, and the fault is
/// `Failed`.
pub fn execute<S: Alter>(
    tx: &mut Transaction<'_, S>,
    text: &str,
    params: &[ValueRef<'_>],
) -> Result<(), StoreFault>
    ensures inside { StaysInside S.Store tx.old.conn tx.new.conn result }
    ensures ran { HasCleanDisk (state S.Store tx.new.conn.now)
        → OnOk result ((count : ℕ) × ExecutesInside 0 text.now (bound params.now) (state S.Store tx.old.conn.now)
        (state S.Store tx.new.conn.now) (Ok count)) }
    ensures told { HasCleanDisk (state S.Store tx.new.conn.now)
        → IfErr result (IsToldOf
        (StatementGave text.now (bound params.now) (state S.Store tx.old.conn.now)
        (state S.Store tx.new.conn.now))) }
    ensures ended { (state S.Store tx.old.conn.now).in_transaction ≡ false
        → (result ≡ Err StoreFault.Failed) × (tx.new.conn.now ≡ tx.old.conn.now) }
{
    match tx.execute(text, params) {
        Ok(_) => Ok(()),
        Err(failure) => Err(fault_of(failure)),
    }
}
