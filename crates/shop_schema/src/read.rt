//! Columns read as the shop's values, and the first row of an answer. Where a column holds no such value, the fault
//! is `Failed`.

ghost use Rattle.std.specs.Prelude.{◌≡◌, ◌≢◌, ◌<◌, ◌≤◌, ℕ, Option, List, Ok, Err, length, map, IfOk, IfErr, IfSome};
ghost use Rattle.std.specs.Fn.{FnReturnsAt};
ghost use Rattle.sqlite.specs.declared.types.Value.TheVariants.{Text as SqlText};
ghost use Rattle.sqlite.specs.Held.{state};
ghost use Rattle.sqlite.specs.State.{HasCleanDisk, Shown};
ghost use Rattle.sqlite.specs.Values.{bound, or_null};
ghost use Rattle.sqlite_value.specs.Order.{Row as SqlRow, column};
ghost use Rattle.sql_rows.specs.Calls.{StaysInside};
ghost use Rattle.sql_rows.specs.Causes.{FailsFirst, FailsToRead};
ghost use Rattle.sql_rows.specs.Rows.{number_value};
ghost use Rattle.sql_rows.specs.declared.fault.StoreFault.TheVariants.{Failed};
ghost use Rattle.shop_model.specs.Calendar.{Moment as Civil, IsMoment};
ghost use Rattle.shop_schema.specs.First.{TellsFirst};
ghost use Rattle.shop_schema.specs.RowValues.{IsNumber, IsText, moment_value};

use shop_types::{Bounded, Moment, RowNumber, Text};
use sql_rows::{StoreFault, number_at, number_or_null_at, query, words_at, words_or_null_at};
use sqlite::types::ValueRef;
use sqlite::{Alter, Row, Transaction};
use std::alloc::Global;

/// Returns the number of a row in the column.
pub fn row_number_at<const KIND: u8>(row: &Row, at: usize) -> Result<RowNumber<KIND>, StoreFault>
    ensures ok { IfOk result (λ n. column row.now at ≡ number_value n) }
    ensures value { IfOk result IsNumber }
    ensures failed { IfErr result (λ e. e ≡ Failed → (n : ℕ) → IsNumber n → at < length row.now
        → column row.now at ≢ number_value n) }
{
    match RowNumber::new(number_at(row, at)?) {
        Some(number) => Ok(number),
        None => Err(StoreFault::Failed),
    }
}

/// Returns the number from LOW to HIGH in the column.
pub fn bounded_at<const LOW: u32, const HIGH: u32>(
    row: &Row,
    at: usize,
) -> Result<Bounded<LOW, HIGH>, StoreFault>
    ensures ok { IfOk result (λ n. column row.now at ≡ number_value n) }
    ensures value { IfOk result (λ n. (LOW ≤ n) × (n ≤ HIGH)) }
    ensures failed { IfErr result (λ e. e ≡ Failed → (n : ℕ) → LOW ≤ n → n ≤ HIGH → at < length row.now
        → column row.now at ≢ number_value n) }
{
    match Bounded::new(number_at(row, at)?) {
        Some(number) => Ok(number),
        None => Err(StoreFault::Failed),
    }
}

/// Reads the row numbers in the first columns of the rows, in the order of the rows.
pub fn row_numbers_in<const KIND: u8>(
    alloc: Global,
    rows: &[Row],
) -> Result<Vec<RowNumber<KIND>>, StoreFault>
    ensures { IfOk result (λ numbers. map number_value numbers.items ≡ map (λ row. column row 0) rows.now) }
{
    let mut numbers = Vec::new(alloc);
    for row in rows {
        if numbers.push(row_number_at(row, 0)?).is_err() {
            return Err(StoreFault::Memory);
        }
    }
    Ok(numbers)
}

/// Returns the moment in the column, by its text.
pub fn moment_at(row: &Row, at: usize) -> Result<Moment, StoreFault>
    ensures ok { IfOk result (λ m. column row.now at ≡ moment_value m) }
    ensures value { IfOk result IsMoment }
    ensures failed { IfErr result (λ e. e ≡ Failed → (m : Civil) → IsMoment m → at < length row.now
        → column row.now at ≢ moment_value m) }
{
    let words = match words_at(row, at) {
        Ok(words) => words,
        Err(fault) => return Err(fault),
    };
    match Moment::read(words.as_str()) {
        Some(moment) => Ok(moment),
        None => Err(StoreFault::Failed),
    }
}

/// Returns the moment in the column, or none if it is NULL.
pub fn moment_or_null_at(row: &Row, at: usize) -> Result<Option<Moment>, StoreFault>
    ensures ok { IfOk result (λ o. column row.now at ≡ or_null moment_value o) }
    ensures value { IfOk result (λ o. IfSome o IsMoment) }
    ensures failed { IfErr result (λ e. e ≡ Failed → (o : Option Civil) → IfSome o IsMoment → at < length row.now
        → column row.now at ≢ or_null moment_value o) }
{
    let words = match words_or_null_at(row, at) {
        Ok(Some(words)) => words,
        Ok(None) => return Ok(None),
        Err(fault) => return Err(fault),
    };
    match Moment::read(words.as_str()) {
        Some(moment) => Ok(Some(moment)),
        None => Err(StoreFault::Failed),
    }
}

/// Returns the number of a row in the column, or none if it is NULL.
pub fn row_number_or_null_at<const KIND: u8>(
    row: &Row,
    at: usize,
) -> Result<Option<RowNumber<KIND>>, StoreFault>
    ensures ok { IfOk result (λ o. column row.now at ≡ or_null number_value o) }
    ensures value { IfOk result (λ o. IfSome o IsNumber) }
    ensures failed { IfErr result (λ e. e ≡ Failed → (o : Option ℕ) → IfSome o IsNumber → at < length row.now
        → column row.now at ≢ or_null number_value o) }
{
    let number = match number_or_null_at(row, at) {
        Ok(Some(number)) => number,
        Ok(None) => return Ok(None),
        Err(fault) => return Err(fault),
    };
    match RowNumber::new(number) {
        Some(named) => Ok(Some(named)),
        None => Err(StoreFault::Failed),
    }
}

/// Returns the text of LOW to HIGH bytes in the column.
pub fn text_at<const LOW: usize, const HIGH: usize>(
    row: &Row,
    at: usize,
) -> Result<Text<LOW, HIGH>, StoreFault>
    ensures ok { IfOk result (λ t. column row.now at ≡ SqlText t) }
    ensures value { IfOk result (λ t. IsText LOW HIGH t) }
    ensures failed { IfErr result (λ e. e ≡ Failed → (t : List ℕ) → IsText LOW HIGH t → at < length row.now
        → column row.now at ≢ SqlText t) }
{
    match Text::read(words_at(row, at)?.into_string()) {
        Some(text) => Ok(text),
        None => Err(StoreFault::Failed),
    }
}

/// Returns what the reader makes of the first row, if there is a row.
pub fn first_of<T, F: Fn(&Row) -> Result<T, StoreFault>>(
    rows: &[Row],
    read: F,
) -> Result<Option<T>, StoreFault>
    requires { F.IsAlwaysCallable read }
    ensures found { IfOk result (TellsFirst (λ row it. FnReturnsAt F.Fn read row (Ok it)) rows.now) }
    ensures failed { IfErr result (FailsFirst (λ row e. FnReturnsAt F.Fn read row (Err e)) rows.now) }
{
    match rows.first() {
        None => Ok(None),
        Some(row) => match read(row) {
            Ok(it) => Ok(Some(it)),
            Err(fault) => Err(fault),
        },
    }
}

/// Returns what the reader makes of the first row that a query shows, if it shows a row. After a fault the transaction
/// may be rolled back.
pub fn query_first<S: Alter, T, F: Fn(&Row) -> Result<T, StoreFault>>(
    tx: &mut Transaction<'_, S>,
    text: &str,
    params: &[ValueRef<'_>],
    read: F,
) -> Result<Option<T>, StoreFault>
    requires { F.IsAlwaysCallable read }
    ensures inside { StaysInside S.Store tx.old.conn tx.new.conn result }
    ensures shown { HasCleanDisk (state S.Store tx.new.conn.now) → IfOk result (λ o. (rows : List SqlRow)
        × Shown text.now (bound params.now) (state S.Store tx.old.conn.now) (state S.Store tx.new.conn.now) rows
        × TellsFirst (λ row it. FnReturnsAt F.Fn read row (Ok it)) rows o) }
    ensures told { HasCleanDisk (state S.Store tx.new.conn.now)
        → IfErr result (FailsToRead (λ row e. FnReturnsAt F.Fn read row (Err e)) text.now (bound params.now)
        (state S.Store tx.old.conn.now) (state S.Store tx.new.conn.now)) }
{
    let rows = match query(tx, text, params) {
        Ok(rows) => rows,
        Err(fault) => return Err(fault),
    };
    first_of(rows.as_slice(), read)
}
