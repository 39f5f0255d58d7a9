//! The list of a branch's customers.

ghost use Rattle.std.specs.Prelude.{◌≡◌, List, ◌∷◌, [], map, IfOk, string_bytes};
ghost use Rattle.sqlite.specs.Held.{state};
ghost use Rattle.sqlite.specs.State.{HasCleanDisk};
ghost use Rattle.sql_rows.specs.Calls.{StaysSame};
ghost use Rattle.shop_model.specs.Json.{array};
ghost use Rattle.shop_model.specs.Rows.{Row as ModelRow};
ghost use Rattle.shop_model.specs.Values.{Customer};
ghost use Rattle.shop_model.specs.Shop.{Catalogue};
ghost use Rattle.shop_model.specs.Books.{Books, shop_of};
ghost use Rattle.shop_model.specs.Views.{customer_list, listed_customer as customer_text};
ghost use Rattle.shop_schema.specs.Shop.{Holds};
ghost use Rattle.shop_schema.specs.Held.{IsHeld};
ghost use Rattle.view_texts.specs.Shown.{shown_customer, listed_customer};

use crate::pages::{ReadsRows, rows_text};
use crate::people::person_at;
use shop_schema::row_number_at;
use shop_types::BranchNo;
use shop_views::people::ListedCustomer;
use sql_rows::{StoreFault, flag_at};
use sqlite::types::ToSql;
use sqlite::{Alter, Connection, Row};
use std::alloc::Global;

/// Reads the customers of a branch.
#[derive(Drop)]
pub(crate) struct CustomersOf {
    branch: BranchNo,
}

impl ReadsRows for CustomersOf {
    type Listed = ListedCustomer;

    ghost reads = { λ it row texts. (catalogue : Catalogue) (x : ModelRow Customer) → row ≡ shown_customer catalogue x
        → texts ≡ customer_text (listed_customer it.branch catalogue x) ∷ [] };

    fn read(&self, alloc: Global, row: &Row) -> Result<Option<ListedCustomer>, StoreFault> {
        Ok(Some(ListedCustomer {
            number: row_number_at(row, 0)?,
            active: flag_at(row, 8)?,
            person: person_at(alloc, row, self.branch)?,
        }))
    }
}

const SELECT_CUSTOMERS: &str =
    "SELECT c.number, c.first, c.last, c.address, c.postal, c.phone, ci.name, co.name, c.active FROM customer AS c LEFT JOIN city AS ci ON ci.number = c.city LEFT JOIN country AS co ON co.number = ci.country WHERE c.branch = ?1 ORDER BY c.number";

/// Returns the customers of the branch, as the text of a list. The database stays as it was, unless the store fails,
/// which commits nothing.
pub fn customer_list<S: Alter>(
    alloc: Global,
    conn: &mut Connection<S>,
    branch: BranchNo,
) -> Result<String, StoreFault>
    ensures text { HasCleanDisk (state S.Store conn.new)
        → IfOk result (λ s. (books : Books) → Holds (state S.Store conn.old) books → IsHeld books → string_bytes s
        ≡ array (map customer_text (customer_list branch books.catalogue (shop_of branch books)))) }
    ensures same { StaysSame S.Store conn.old conn.new result }
{
    rows_text(
        alloc,
        conn,
        SELECT_CUSTOMERS,
        &[branch.get().to_sql()],
        CustomersOf { branch },
    )
}
