//! Rows of an answer as values.

ghost use Rattle.std.specs.Prelude.{List, Option, ◌≡◌, ◌≢◌, ◌<◌, ◌^◌, ℕ, IsUtf8, Bool, length, IfErr, IfSome, map, take, IfOk};
ghost use Rattle.std.specs.List.{AllByRecursion};
ghost use Rattle.std.specs.Option.{option_to_list};
ghost use Rattle.sqlite_value.specs.declared.value.Value.TheVariants.{Text, Blob};
ghost use Rattle.sql_rows.specs.Rows.{number_value, flag_value};
ghost use Rattle.sql_rows.specs.declared.fault.StoreFault.TheVariants.{Failed};
ghost use Rattle.sqlite_value.specs.Order.{Row as SqlRow, column};
ghost use Rattle.sqlite.specs.Held.{state};
ghost use Rattle.sqlite.specs.State.{HasCleanDisk, Shown};
ghost use Rattle.sqlite.specs.Values.{bound, or_null};
ghost use Rattle.sql_rows.specs.Calls.{StaysInside};
ghost use Rattle.sql_rows.specs.Causes.{FailsAtOne, FailsFirst, FailsToRead, FailsToReadAll};

use crate::call::query;
use crate::fault::{StoreFault, fault_of};
use crate::text::{Bytes, Words};
use sqlite::types::ValueRef;
use sqlite::{Alter, Row, Transaction};
use std::alloc::Global;

/// A value that is read from a row of some table.
pub trait Stored: Sized + Drop {
    // the columns of its row
    ghost columns: { Self → SqlRow };

    // the program can hold the value's numbers and texts
    ghost fits: { Self → Type 0 };

    // the rows that may be refused as `Failed`
    ghost refuses: { SqlRow → Type 0 };

    /// Reads the value whose columns the row has. Fails if the program can't hold that value.
    fn read(row: &Row) -> Result<Self, StoreFault>
        ensures ok { IfOk result (λ x. columns x ≡ row.now) }
        ensures value { IfOk result (λ x. fits x) }
        ensures failed { IfErr result (λ e. e ≡ Failed → refuses row.now) };
}

/// Reads the values of the rows, in their order.
fn read_all<T: Stored>(alloc: Global, rows: &[Row]) -> Result<Vec<T>, StoreFault>
    ensures ok { IfOk result (λ all. map T.Stored.columns all.items ≡ rows.now) }
    ensures values { IfOk result (λ all. AllByRecursion T.Stored.fits all.items) }
    ensures failed { IfErr result (FailsAtOne T.Stored.refuses rows.now) }
{
    let mut all = Vec::new(alloc);
    for row in rows {
        match T::read(row) {
            Ok(value) => all.push(value)?,
            Err(fault) => return Err(fault),
        }
    }
    Ok(all)
}

/// Returns the value of the first row, if there is a row.
fn read_one<T: Stored>(rows: &[Row]) -> Result<Option<T>, StoreFault>
    ensures ok { IfOk result (λ o. map T.Stored.columns (option_to_list o) ≡ take 1 rows.now) }
    ensures value { IfOk result (λ o. IfSome o T.Stored.fits) }
    ensures failed { IfErr result (FailsFirst (λ row e. e ≡ Failed → T.Stored.refuses row) rows.now) }
{
    match rows.first() {
        None => Ok(None),
        Some(row) => match T::read(row) {
            Ok(value) => Ok(Some(value)),
            Err(fault) => Err(fault),
        },
    }
}

/// Returns the values of the rows that a query shows, in their order. After a fault the transaction may be rolled
/// back.
pub fn query_all<S: Alter, T: Stored>(
    alloc: Global,
    tx: &mut Transaction<'_, S>,
    text: &str,
    params: &[ValueRef<'_>],
) -> Result<Vec<T>, StoreFault>
    ensures inside { StaysInside S.Store tx.old.conn tx.new.conn result }
    ensures shown { HasCleanDisk (state S.Store tx.new.conn.now) → IfOk result (λ all. (rows : List SqlRow)
        × Shown text.now (bound params.now) (state S.Store tx.old.conn.now) (state S.Store tx.new.conn.now) rows
        × (map T.Stored.columns all.items ≡ rows) × AllByRecursion T.Stored.fits all.items) }
    ensures told { HasCleanDisk (state S.Store tx.new.conn.now)
        → IfErr result (FailsToReadAll T.Stored.refuses text.now (bound params.now)
        (state S.Store tx.old.conn.now) (state S.Store tx.new.conn.now)) }
{
    let rows = match query(tx, text, params) {
        Ok(rows) => rows,
        Err(fault) => return Err(fault),
    };
    read_all(alloc, rows.as_slice())
}

/// Returns the value of the first row that a query shows, if it shows a row. After a fault the transaction may be
/// rolled back.
pub fn query_one<S: Alter, T: Stored>(
    tx: &mut Transaction<'_, S>,
    text: &str,
    params: &[ValueRef<'_>],
) -> Result<Option<T>, StoreFault>
    ensures inside { StaysInside S.Store tx.old.conn tx.new.conn result }
    ensures shown { HasCleanDisk (state S.Store tx.new.conn.now) → IfOk result (λ o. (rows : List SqlRow)
        × Shown text.now (bound params.now) (state S.Store tx.old.conn.now) (state S.Store tx.new.conn.now) rows
        × (map T.Stored.columns (option_to_list o) ≡ take 1 rows) × IfSome o T.Stored.fits) }
    ensures told { HasCleanDisk (state S.Store tx.new.conn.now)
        → IfErr result (FailsToRead (λ row e. e ≡ Failed → T.Stored.refuses row) text.now (bound params.now)
        (state S.Store tx.old.conn.now) (state S.Store tx.new.conn.now)) }
{
    let rows = match query(tx, text, params) {
        Ok(rows) => rows,
        Err(fault) => return Err(fault),
    };
    read_one(rows.as_slice())
}

/// Returns the number below 4,294,967,296 in the column, where columns are counted from 0.
pub fn number_at(row: &Row, at: usize) -> Result<u32, StoreFault>
    ensures ok { IfOk result (λ n. column row.now at ≡ number_value n) }
    ensures failed { IfErr result (λ e. e ≡ Failed → (n : ℕ) → n < 2 ^ 32 → at < length row.now
        → column row.now at ≢ number_value n) }
{
    match row.get(at) {
        Ok(number) => Ok(number),
        Err(error) => Err(fault_of(error)),
    }
}

/// Returns the text in the column.
pub fn words_at(row: &Row, at: usize) -> Result<Words, StoreFault>
    ensures ok { IfOk result (λ w. column row.now at ≡ Text w) }
    ensures utf8 { IfOk result (λ w. IsUtf8 w) }
    ensures failed { IfErr result (λ e. e ≡ Failed → (t : List ℕ) → IsUtf8 t → at < length row.now
        → column row.now at ≢ Text t) }
{
    match row.get(at) {
        Ok(text) => Ok(Words::new(text)),
        Err(error) => Err(fault_of(error)),
    }
}

/// Returns the truth value in the column: 0 or 1.
pub fn flag_at(row: &Row, at: usize) -> Result<bool, StoreFault>
    ensures ok { IfOk result (λ b. column row.now at ≡ flag_value b) }
    ensures failed { IfErr result (λ e. e ≡ Failed → (b : Bool) → at < length row.now
        → column row.now at ≢ flag_value b) }
{
    match number_at(row, at)? {
        0 => Ok(false),
        1 => Ok(true),
        _ => Err(StoreFault::Failed),
    }
}

/// Returns the bytes in the column.
pub fn bytes_at(row: &Row, at: usize) -> Result<Bytes, StoreFault>
    ensures ok { IfOk result (λ b. column row.now at ≡ Blob b) }
    ensures failed { IfErr result (λ e. e ≡ Failed → (b : List ℕ) → at < length row.now
        → column row.now at ≢ Blob b) }
{
    match row.get(at) {
        Ok(bytes) => Ok(Bytes::new(bytes)),
        Err(error) => Err(fault_of(error)),
    }
}

/// Returns the text in the column, or none if it is NULL.
pub fn words_or_null_at(row: &Row, at: usize) -> Result<Option<Words>, StoreFault>
    ensures ok { IfOk result (λ o. column row.now at ≡ or_null Text o) }
    ensures utf8 { IfOk result (λ o. IfSome o (λ w. IsUtf8 w)) }
    ensures failed { IfErr result (λ e. e ≡ Failed → (o : Option (List ℕ)) → IfSome o (λ t. IsUtf8 t) → at < length row.now
        → column row.now at ≢ or_null Text o) }
{
    let text: Result<Option<String>, _> = row.get(at);
    match text {
        Ok(Some(text)) => Ok(Some(Words::new(text))),
        Ok(None) => Ok(None),
        Err(error) => Err(fault_of(error)),
    }
}

/// Returns the number below 4,294,967,296 in the column, or none if it is NULL.
pub fn number_or_null_at(row: &Row, at: usize) -> Result<Option<u32>, StoreFault>
    ensures ok { IfOk result (λ o. column row.now at ≡ or_null number_value o) }
    ensures failed { IfErr result (λ e. e ≡ Failed → (o : Option ℕ) → IfSome o (λ n. n < 2 ^ 32) → at < length row.now
        → column row.now at ≢ or_null number_value o) }
{
    let found: Result<Option<u32>, _> = row.get(at);
    match found {
        Ok(found) => Ok(found),
        Err(error) => Err(fault_of(error)),
    }
}
