//! Columns, and rows of columns. What a column holds is a type. A row is the pair of its first column and the columns
//! after it.

ghost use Rattle.std.specs.Prelude.{⊤, ◌≡◌, ◌≢◌, ◌<◌, ◌≤◌, ◌^◌, List, [], ◌∷◌, IsUtf8, length, drop, IfOk, IfErr, IfSome};
ghost use Rattle.sqlite_value.specs.declared.value.Value.{Value};
ghost use Rattle.sqlite_value.specs.declared.value.Value.TheVariants.{Text, Blob};
ghost use Rattle.sqlite_value.specs.Order.{Row as SqlRow, column};
ghost use Rattle.sqlite.specs.Values.{or_null};
ghost use Rattle.sql_rows.specs.Rows.{number_value, flag_value};
ghost use Rattle.sql_rows.specs.declared.fault.StoreFault.TheVariants.{Failed};

use sql_rows::{Bytes, StoreFault, Words, bytes_at, flag_at, number_at, words_at};
use sqlite::Row;
use sqlite::types::ValueRef;

/// What a column holds.
pub trait Cell: Sized + Drop {
    // the column's value
    ghost value: { Self → Value };

    // the program can hold the value
    ghost fits: { Self → Type 0 };

    /// Returns what the column holds, where columns are counted from 0. `Failed` says that it holds nothing that the
    /// program can hold.
    fn read_at(row: &Row, at: usize) -> Result<Self, StoreFault>
        ensures ok { IfOk result (λ x. column row.now at ≡ value x) }
        ensures fit { IfOk result (λ x. fits x) }
        ensures failed { IfErr result (λ e. e ≡ Failed → (x : Self) → fits x → at < length row.now
            → column row.now at ≢ value x) };
}

impl Cell for u32 {
    ghost value = { number_value };

    ghost fits = { λ n. n < 2 ^ 32 };

    fn read_at(row: &Row, at: usize) -> Result<u32, StoreFault> {
        number_at(row, at)
    }
}

impl Cell for bool {
    ghost value = { flag_value };

    ghost fits = { λ _. ⊤ };

    fn read_at(row: &Row, at: usize) -> Result<bool, StoreFault> {
        flag_at(row, at)
    }
}

impl Cell for Words {
    ghost value = { Text };

    ghost fits = { IsUtf8 };

    fn read_at(row: &Row, at: usize) -> Result<Words, StoreFault> {
        words_at(row, at)
    }
}

impl Cell for Bytes {
    ghost value = { Blob };

    ghost fits = { λ _. ⊤ };

    fn read_at(row: &Row, at: usize) -> Result<Bytes, StoreFault> {
        bytes_at(row, at)
    }
}

impl<C: Cell> Cell for Option<C> {
    ghost value = { or_null C.Cell.value };

    ghost fits = { λ o. IfSome o C.Cell.fits };

    fn read_at(row: &Row, at: usize) -> Result<Option<C>, StoreFault> {
        match row.get_ref(at) {
            Ok(ValueRef::Null) => Ok(None),
            _ => Ok(Some(C::read_at(row, at)?)),
        }
    }
}

/// The columns of a row from some column on: nothing, or a cell and the cells after it.
pub trait Cells: Sized + Drop {
    ghost columns: { Self → SqlRow };

    ghost fits: { Self → Type 0 };

    /// Reads the cells from the column on, to the row's end.
    fn read_from(row: &Row, at: usize) -> Result<Self, StoreFault>
        requires { at ≤ length row.now }
        ensures ok { IfOk result (λ x. columns x ≡ drop at row.now) }
        ensures fit { IfOk result (λ x. fits x) }
        ensures failed { IfErr result (λ e. e ≡ Failed → (x : Self) → fits x → columns x ≢ drop at row.now) };
}

impl Cells for () {
    ghost columns = { λ _. [] };

    ghost fits = { λ _. Unit {0} };

    fn read_from(row: &Row, at: usize) -> Result<(), StoreFault> {
        if at == row.column_count() {
            Ok(())
        } else {
            Err(StoreFault::Failed)
        }
    }
}

impl<A: Cell, B: Cells> Cells for (A, B) {
    ghost columns = { λ p. A.Cell.value p.0 ∷ B.Cells.columns p.1 };

    ghost fits = { λ p. A.Cell.fits p.0 × B.Cells.fits p.1 };

    fn read_from(row: &Row, at: usize) -> Result<(A, B), StoreFault> {
        if at == row.column_count() {
            return Err(StoreFault::Failed);
        }
        let first = A::read_at(row, at)?;
        let more = B::read_from(row, at + 1)?;
        Ok((first, more))
    }
}

/// Returns the cells of the whole row. `Failed` says that the row has other columns, or another number of columns.
pub fn read_cells<C: Cells>(row: &Row) -> Result<C, StoreFault>
    ensures ok { IfOk result (λ x. C.Cells.columns x ≡ row.now) }
    ensures fit { IfOk result (λ x. C.Cells.fits x) }
    ensures failed { IfErr result (λ e. e ≡ Failed → (x : C) → C.Cells.fits x → C.Cells.columns x ≢ row.now) }
{
    C::read_from(row, 0)
}
