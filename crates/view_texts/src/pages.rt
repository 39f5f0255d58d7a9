//! Lists whose values are read from the rows of a query, at most one from a row.

ghost use Rattle.std.specs.Prelude.{⊤, ◌≡◌, List, IfOk, map, string_bytes};
ghost use Rattle.std.specs.Option.{option_to_list};
ghost use Rattle.sqlite.specs.Held.{state};
ghost use Rattle.sqlite.specs.State.{HasCleanDisk, Shown};
ghost use Rattle.sqlite.specs.Values.{bound};
ghost use Rattle.sqlite_value.specs.Order.{Row as SqlRow};
ghost use Rattle.sql_rows.specs.Calls.{StaysSame};
ghost use Rattle.sql_rows.specs.Texts.{IsQuery};
ghost use Rattle.shop_model.specs.Json.{array};
ghost use Rattle.shop_model.specs.Values.{Text};
ghost use Rattle.view_texts.specs.Pages.{IsRead, HasRead};

use shop_views::{ListPage, ListedRow};
use sql_rows::{StoreFault, TakesRows, each_row};
use sqlite::types::ValueRef;
use sqlite::{Alter, Connection, Row};
use std::alloc::Global;

/// A reader of a list's values from the rows of a query.
pub(crate) trait ReadsRows: Sized {
    type Listed: ListedRow + Drop;

    // the texts that the list takes from the row: one, or none
    ghost reads: { Self → SqlRow → List Text → Type 0 };

    fn read(&self, alloc: Global, row: &Row) -> Result<Option<Self::Listed>, StoreFault>
        ensures { IfOk result (λ it. reads self.now row.now (map Self.Listed.ListedRow.written (option_to_list it))) };
}

/// The list of the values that were read so far.
#[derive(Drop)]
pub(crate) struct RowsPage<R> {
    page: ListPage,
    alloc: Global,
    reader: R,
}

impl<R: ReadsRows> TakesRows for RowsPage<R> {
    ghost took = { λ first it given. (it.reader ≡ first.reader)
        × HasRead (R.ReadsRows.reads first.reader) given it.page };

    ghost refuses = { λ _ _. ⊤ };

    fn take(&mut self, row: &Row) -> Result<(), StoreFault> {
        if let Some(it) = self.reader.read(self.alloc, row)? {
            self.page.add_row(&it)?;
        }
        Ok(())
    }
}

/// Reads the rows of a query into a list, and returns the list's text. The database stays as it was, unless the store
/// fails, which commits nothing.
pub(crate) fn rows_text<S: Alter, R: ReadsRows + Drop>(
    alloc: Global,
    conn: &mut Connection<S>,
    text: &str,
    params: &[ValueRef<'_>],
    reader: R,
) -> Result<String, StoreFault>
    requires { IsQuery text.now }
    ensures text { HasCleanDisk (state S.Store conn.new)
        → IfOk result (λ s. (rows : List SqlRow) × (texts : List Text)
        × Shown text.now (bound params.now) (state S.Store conn.old) (state S.Store conn.new) rows
        × IsRead (R.ReadsRows.reads reader) rows texts × (string_bytes s ≡ array texts)) }
    ensures same { StaysSame S.Store conn.old conn.new result }
{
    let mut taker = RowsPage {
        page: ListPage::new(alloc),
        alloc,
        reader,
    };
    each_row(conn, text, params, &mut taker)?;
    let RowsPage { page, .. } = taker;
    Ok(page.finish()?)
}
