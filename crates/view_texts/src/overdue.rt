//! The list of a branch's overdue rentals: the rows of the copies that are out whose periods ended before the moment's
//! day.

ghost use Rattle.std.specs.Prelude.{◌≡◌, List, ◌∷◌, [], if◌then◌else◌, map, IfOk, string_bytes};
ghost use Rattle.sqlite.specs.Held.{state};
ghost use Rattle.sqlite.specs.State.{HasCleanDisk};
ghost use Rattle.sql_rows.specs.Calls.{StaysSame};
ghost use Rattle.shop_model.specs.Json.{array};
ghost use Rattle.shop_model.specs.Values.{Rental, Terms};
ghost use Rattle.shop_model.specs.Shop.{Catalogue, Shop};
ghost use Rattle.shop_model.specs.Books.{Books, shop_of};
ghost use Rattle.shop_model.specs.Views.{overdue_row, overdue_list, overdue_text};
ghost use Rattle.shop_schema.specs.Shop.{Holds};
ghost use Rattle.shop_schema.specs.Held.{IsHeld};
ghost use Rattle.shop_views.specs.Overdue.{seen_overdue};
ghost use Rattle.view_texts.specs.Overdue.{shown_out, is_late, IsReal};

use crate::pages::{ReadsRows, rows_text};
use balance_rule::is_overdue;
use shop_schema::{bounded_at, moment_at, text_at};
use shop_types::{BranchNo, Moment};
use shop_views::overdue_rows::OverdueRow;
use sql_rows::StoreFault;
use sqlite::types::ToSql;
use sqlite::{Alter, Connection, Row};
use std::alloc::Global;

/// Returns whether the open rental of the row is overdue at the moment.
fn is_late_at(row: &Row, moment: Moment) -> Result<bool, StoreFault>
    ensures { IfOk result (λ late. (catalogue : Catalogue) (shop : Shop) (it : Rental × Terms) → IsReal it
        → row.now ≡ shown_out catalogue shop it → late ≡ is_late moment it) }
{
    let rented = moment_at(row, 0)?;
    let period = bounded_at(row, 1)?;
    Ok(is_overdue(rented, period, moment))
}

/// Reads the rental of the row as the list shows it. In sound tables, no row lacks its customer or its film.
fn read_overdue(row: &Row) -> Result<OverdueRow, StoreFault>
    ensures { IfOk result (λ it. (catalogue : Catalogue) (shop : Shop) (out : Rental × Terms)
        → row.now ≡ shown_out catalogue shop out → seen_overdue it ≡ overdue_row catalogue shop out.0) }
{
    Ok(OverdueRow {
        first: text_at(row, 2)?,
        last: text_at(row, 3)?,
        phone: text_at(row, 4)?,
        title: text_at(row, 5)?,
    })
}

/// Reads the rentals that are overdue at a moment.
#[derive(Drop)]
pub(crate) struct OverdueAt {
    moment: Moment,
}

impl ReadsRows for OverdueAt {
    type Listed = OverdueRow;

    ghost reads = { λ it row texts. (catalogue : Catalogue) (shop : Shop) (out : Rental × Terms) → IsReal out
        → row ≡ shown_out catalogue shop out
        → texts ≡ (if is_late it.moment out then overdue_text (overdue_row catalogue shop out.0) ∷ [] else []) };

    fn read(&self, _alloc: Global, row: &Row) -> Result<Option<OverdueRow>, StoreFault> {
        let late = is_late_at(row, self.moment)?;
        if !late {
            return Ok(None);
        }
        Ok(Some(read_overdue(row)?))
    }
}

const SELECT_OUTS: &str =
    "SELECT r.moment, t.period, cu.first, cu.last, cu.phone, f.title FROM out_copy AS o LEFT JOIN rental AS r ON r.branch = o.branch AND r.number = o.rental LEFT JOIN rental_terms AS t ON t.branch = o.branch AND t.rental = o.rental LEFT JOIN customer AS cu ON cu.branch = o.branch AND cu.number = r.customer LEFT JOIN copy AS c ON c.branch = o.branch AND c.number = o.copy LEFT JOIN film AS f ON f.number = c.film WHERE o.branch = ?1 ORDER BY o.rental";

/// Returns the branch's rentals that are overdue at the moment, in the order of their numbers, as the text of a list.
/// One statement reads as many rows of each table as copies are out, and sorts what it finds. It fails with `Failed`
/// if a row lacks its rental, terms, customer or film, which no sound table does. The database stays as it was, unless
/// the store fails, which commits nothing.
pub fn overdue_list<S: Alter>(
    alloc: Global,
    conn: &mut Connection<S>,
    branch: BranchNo,
    at: Moment,
) -> Result<String, StoreFault>
    ensures text { HasCleanDisk (state S.Store conn.new)
        → IfOk result (λ s. (books : Books) → Holds (state S.Store conn.old) books → IsHeld books → string_bytes s
        ≡ array (map overdue_text (overdue_list books.catalogue (shop_of branch books) at))) }
    ensures same { StaysSame S.Store conn.old conn.new result }
{
    rows_text(
        alloc,
        conn,
        SELECT_OUTS,
        &[branch.get().to_sql()],
        OverdueAt { moment: at },
    )
}
