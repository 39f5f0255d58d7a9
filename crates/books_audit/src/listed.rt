//! Lists of what is kept of a table's rows.

ghost use Rattle.std.specs.Prelude.{◌≡◌, IfOk, IfSome, IfNone};
ghost use Rattle.std.specs.List.{AllByRecursion};
ghost use Rattle.sqlite_value.specs.Order.{Row as SqlRow};
ghost use Rattle.books_audit.specs.Listed.{AreRows, IsListed};

use shop_schema::{Cells, read_cells};
use shop_types::NoMemory;
use sql_rows::StoreFault;
use sqlite::Row;
use std::alloc::Global;

/// A value that is kept of a row of some table.
pub trait Listed: Sized + Drop {
    // the value is kept of the row, which is one of the table's
    ghost is_row: { Self → SqlRow → Type 0 };

    /// Reads what is kept of the row, or returns nothing if the row isn't one of the table's. It fails only if it runs
    /// out of memory.
    fn read(row: &Row) -> Result<Option<Self>, StoreFault>
        ensures found { IfOk result (λ o. IfSome o (λ x. is_row x row.now)) }
        ensures none { IfOk result (λ o. IfNone o (¬ IsListed is_row row.now)) };
}

/// Reads what is kept of each row, in their order, or returns nothing if a row isn't one of the table's. A row that
/// fails to be read means out of memory.
pub fn read_rows<T: Listed>(alloc: Global, rows: &[Row]) -> Result<Option<Vec<T>>, NoMemory>
    ensures found { IfOk result (λ o. IfSome o (λ all. AreRows T.Listed.is_row all.items rows.now)) }
    ensures none { IfOk result (λ o. IfNone o (¬ AllByRecursion (IsListed T.Listed.is_row) rows.now)) }
{
    let mut all = Vec::new(alloc);
    for row in rows {
        let Ok(read) = T::read(row) else {
            return Err(NoMemory);
        };
        let Some(kept) = read else {
            return Ok(None);
        };
        if all.push(kept).is_err() {
            return Err(NoMemory);
        }
    }
    Ok(Some(all))
}

/// A value that is made of the cells of a table's row. Each row with such cells is one of the table's.
pub trait Kept: Sized + Drop {
    type Cells: Cells;

    // the value is kept of the row, which is one of the table's
    ghost kept: { Self → SqlRow → Type 0 };

    // what is kept of the cells
    ghost keeps: { Self.Cells → Self };

    fn keep(cells: Self::Cells) -> Self
        ensures { result ≡ keeps cells };

    ghost rows: { (p : Self.Cells) → Self.Cells.fits p → kept (keeps p) (Self.Cells.columns p) };

    ghost only: { (x : Self) (r : SqlRow) → kept x r
        → (p : Self.Cells) × Self.Cells.fits p × (Self.Cells.columns p ≡ r) };
}

impl<T: Kept> Listed for T {
    ghost is_row = { T.Kept.kept };

    fn read(row: &Row) -> Result<Option<T>, StoreFault> {
        match read_cells::<T::Cells>(row) {
            Ok(cells) => Ok(Some(T::keep(cells))),
            Err(StoreFault::Failed) => Ok(None),
            Err(fault) => Err(fault),
        }
    }
}
