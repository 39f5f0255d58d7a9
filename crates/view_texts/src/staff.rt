//! The list of a branch's staff.

ghost use Rattle.std.specs.Prelude.{◌≡◌, ℕ, List, ◌∷◌, [], map, IfOk, string_bytes};
ghost use Rattle.sqlite.specs.Held.{state};
ghost use Rattle.sqlite.specs.State.{HasCleanDisk};
ghost use Rattle.sql_rows.specs.Calls.{StaysSame};
ghost use Rattle.shop_model.specs.Json.{array};
ghost use Rattle.shop_model.specs.Values.{Staff};
ghost use Rattle.shop_model.specs.Shop.{Catalogue};
ghost use Rattle.shop_model.specs.Books.{Books};
ghost use Rattle.shop_model.specs.Views.{staff_list, person_text};
ghost use Rattle.shop_schema.specs.Shop.{Holds};
ghost use Rattle.view_texts.specs.Shown.{shown_staff, listed_staff};

use crate::pages::{ReadsRows, rows_text};
use crate::people::person_at;
use shop_schema::row_number_at;
use shop_types::BranchNo;
use shop_views::people::ListedStaff;
use sql_rows::StoreFault;
use sqlite::types::ToSql;
use sqlite::{Alter, Connection, Row};
use std::alloc::Global;

/// Reads the staff of a branch.
#[derive(Drop)]
pub(crate) struct StaffOf {
    branch: BranchNo,
}

impl ReadsRows for StaffOf {
    type Listed = ListedStaff;

    ghost reads = { λ it row texts. (catalogue : Catalogue) (x : ℕ × Staff) → row ≡ shown_staff catalogue x
        → texts ≡ person_text [] (listed_staff it.branch catalogue x) ∷ [] };

    fn read(&self, alloc: Global, row: &Row) -> Result<Option<ListedStaff>, StoreFault> {
        Ok(Some(ListedStaff {
            number: row_number_at(row, 0)?,
            person: person_at(alloc, row, self.branch)?,
        }))
    }
}

const SELECT_STAFF: &str =
    "SELECT s.number, s.first, s.last, s.address, s.postal, s.phone, ci.name, co.name FROM staff AS s LEFT JOIN city AS ci ON ci.number = s.city LEFT JOIN country AS co ON co.number = ci.country WHERE s.branch = ?1 ORDER BY s.number";

/// Returns the staff of the branch, also those who left, as the text of a list. The database stays as it was, unless
/// the store fails, which commits nothing.
pub fn staff_list<S: Alter>(
    alloc: Global,
    conn: &mut Connection<S>,
    branch: BranchNo,
) -> Result<String, StoreFault>
    ensures text { HasCleanDisk (state S.Store conn.new)
        → IfOk result (λ s. (books : Books) → Holds (state S.Store conn.old) books → string_bytes s
        ≡ array (map (person_text []) (staff_list branch books.catalogue))) }
    ensures same { StaysSame S.Store conn.old conn.new result }
{
    rows_text(
        alloc,
        conn,
        SELECT_STAFF,
        &[branch.get().to_sql()],
        StaffOf { branch },
    )
}
