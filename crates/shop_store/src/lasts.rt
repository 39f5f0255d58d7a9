//! The last number of each table of shared rows. Rows are numbered from 1 without a gap, so the last number is the
//! count of rows, and a new row's number is one more.

ghost use Rattle.std.specs.Prelude.{◌≡◌, List, []};
ghost use Rattle.sqlite.specs.State.{Shown};
ghost use Rattle.sqlite_value.specs.Order.{Row as SqlRow};
ghost use Rattle.sql_rows.specs.Calls.{DoesInside};
ghost use Rattle.shop_ledger.specs.Calls.{Finds};
ghost use Rattle.shop_store.specs.SharedSeen.{IsFirstNumber, how_many, last_text};

use shop_schema::query_first;
use sql_rows::{StoreFault, number_at};
use sqlite::{Alter, Transaction};

/// A table of shared rows, whose numbers are their places.
#[derive(Clone, Copy)]
pub enum SharedTable {
    Country,
    Language,
    Category,
    City,
    Actor,
    Film,
    Branch,
    Staff,
}

/// Returns the number in the first row that the query shows, or 0 if it shows none.
fn number_shown<S: Alter>(tx: &mut Transaction<'_, S>, text: &str) -> Result<u32, StoreFault>
    ensures { DoesInside S.Store tx.old.conn tx.new.conn result
        (λ n old new. (rows : List SqlRow) × Shown text.now [] old new rows × IsFirstNumber rows n) }
{
    Ok(query_first(tx, text, &[], |row| number_at(row, 0))?.unwrap_or(0))
}

const SELECT_LAST_COUNTRY: &str = "SELECT number FROM country ORDER BY number DESC LIMIT 1";

const SELECT_LAST_LANGUAGE: &str = "SELECT number FROM language ORDER BY number DESC LIMIT 1";

const SELECT_LAST_CATEGORY: &str = "SELECT number FROM category ORDER BY number DESC LIMIT 1";

const SELECT_LAST_CITY: &str = "SELECT number FROM city ORDER BY number DESC LIMIT 1";

const SELECT_LAST_ACTOR: &str = "SELECT number FROM actor ORDER BY number DESC LIMIT 1";

const SELECT_LAST_FILM: &str = "SELECT number FROM film ORDER BY number DESC LIMIT 1";

const SELECT_LAST_BRANCH: &str = "SELECT number FROM branch ORDER BY number DESC LIMIT 1";

const SELECT_LAST_STAFF: &str = "SELECT number FROM staff ORDER BY number DESC LIMIT 1";

impl SharedTable {
    /// Returns the statement that shows the number of the table's last row.
    fn last_row(self) -> &'static str
        ensures { result.now ≡ last_text self }
    {
        match self {
            SharedTable::Country => SELECT_LAST_COUNTRY,
            SharedTable::Language => SELECT_LAST_LANGUAGE,
            SharedTable::Category => SELECT_LAST_CATEGORY,
            SharedTable::City => SELECT_LAST_CITY,
            SharedTable::Actor => SELECT_LAST_ACTOR,
            SharedTable::Film => SELECT_LAST_FILM,
            SharedTable::Branch => SELECT_LAST_BRANCH,
            SharedTable::Staff => SELECT_LAST_STAFF,
        }
    }
}

/// Returns the number of the table's last row, or 0 if the table has no row.
pub fn last_number<S: Alter>(
    tx: &mut Transaction<'_, S>,
    table: SharedTable,
) -> Result<u32, StoreFault>
    ensures { DoesInside S.Store tx.old.conn tx.new.conn result
        (λ last. Finds (λ books. last ≡ how_many table books.catalogue)) }
{
    number_shown(tx, table.last_row())
}
