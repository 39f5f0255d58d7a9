//! What branches have taken for rentals.

ghost use Rattle.std.specs.Prelude.{⊤, ◌≡◌, ℕ, List, [], ◌∷◌, ◌++◌, Option, Some, None, IfOk, OnOk, map, option_map, false, not, flat_map, string_bytes};
ghost use Rattle.sqlite.specs.Held.{state};
ghost use Rattle.sqlite.specs.State.{HasCleanDisk};
ghost use Rattle.sql_rows.specs.Calls.{StaysSame};
ghost use Rattle.shop_model.specs.Json.{array};
ghost use Rattle.shop_model.specs.Rows.{at, lacks, numbered};
ghost use Rattle.shop_model.specs.Values.{Text, Branch};
ghost use Rattle.shop_model.specs.Shop.{Catalogue};
ghost use Rattle.shop_model.specs.Books.{Books, head, shop_of};
ghost use Rattle.shop_model.specs.Views.{sales_by_store, listed_store};
ghost use Rattle.shop_schema.specs.Shop.{Holds};
ghost use Rattle.shop_schema.specs.Held.{IsHeld};
ghost use Rattle.shop_views.specs.Page.{HasTexts};
ghost use Rattle.shop_views.specs.Sales.{seen_store};
ghost use Rattle.view_texts.specs.Payments.{PaidLine, shown_line, Sale, sale_in};
ghost use Rattle.view_texts.specs.Sales.{sum_of, HasSold, shown_store, store_with, HasFound, rental_sum, sales_of_branch, sales_of_first};

use crate::people::{city_at, person_name_or_null_at};
use shop_types::BranchNo;
use shop_views::ListPage;
use shop_views::sales::StoreRow;
use sql_rows::{StoreFault, TakesRows, each_row, number_at, number_or_null_at};
use sqlite::types::ToSql;
use sqlite::{Alter, Connection, Row};
use std::alloc::{AllocError, Global};

/// Adds the row's payment to the sum, if the payment's rental is there.
fn with_payment(sum: Option<u64>, row: &Row) -> Result<Option<u64>, StoreFault>
    ensures { IfOk result (λ new. (line : PaidLine) (sales : List Sale) → row.now ≡ shown_line line
        → sum ≡ sum_of sales → new ≡ sum_of (sales ++ sale_in line)) }
{
    if number_or_null_at(row, 1)?.is_none() {
        return Ok(sum);
    }
    let amount = u64::from(number_at(row, 0)?);
    match sum.unwrap_or(0).checked_add(amount) {
        Some(sum) => Ok(Some(sum)),
        None => Err(StoreFault::Failed),
    }
}

/// The sum of the payments for rentals so far, if there are any.
#[derive(Drop)]
pub(crate) struct SalesSum {
    sum: Option<u64>,
}

impl TakesRows for SalesSum {
    ghost took = { HasSold };

    ghost refuses = { λ _ _. ⊤ };

    fn take(&mut self, row: &Row) -> Result<(), StoreFault> {
        self.sum = with_payment(self.sum, row)?;
        Ok(())
    }
}

/// Reads the branch of the row, with no sum yet.
fn read_store(alloc: Global, row: &Row) -> Result<StoreRow, StoreFault>
    ensures { IfOk result (λ it. (catalogue : Catalogue) (x : ℕ × Branch) → row.now ≡ shown_store catalogue x
        → seen_store it ≡ store_with catalogue 0 x.1) }
{
    let (city, country) = city_at(alloc, row, 1, 2)?;
    Ok(StoreRow {
        city,
        country,
        manager: person_name_or_null_at(row, 3, 4)?,
        total: 0,
    })
}

/// The branch, if one was found.
#[derive(Drop)]
pub(crate) struct FoundStore {
    alloc: Global,
    row: Option<StoreRow>,
}

impl TakesRows for FoundStore {
    ghost took = { HasFound };

    ghost refuses = { λ _ _. ⊤ };

    fn take(&mut self, row: &Row) -> Result<(), StoreFault> {
        self.row = Some(read_store(self.alloc, row)?);
        Ok(())
    }
}

const SELECT_STORE: &str =
    "SELECT b.number, ci.name, co.name, s.first, s.last FROM branch AS b LEFT JOIN city AS ci ON ci.number = b.city LEFT JOIN country AS co ON co.number = ci.country LEFT JOIN staff AS s ON s.number = b.manager WHERE b.number = ?1 ORDER BY b.number";

/// Finds the branch's row, with no sum yet, or none if there is no such branch.
fn find_store<S: Alter>(
    alloc: Global,
    conn: &mut Connection<S>,
    branch: BranchNo,
) -> Result<Option<StoreRow>, StoreFault>
    ensures row { HasCleanDisk (state S.Store conn.new)
        → IfOk result (λ found. (books : Books) → Holds (state S.Store conn.old) books → option_map seen_store found
        ≡ head (map (store_with books.catalogue 0) (at branch books.catalogue.branches))) }
    ensures same { StaysSame S.Store conn.old conn.new result }
{
    let mut taker = FoundStore { alloc, row: None };
    each_row(conn, SELECT_STORE, &[branch.get().to_sql()], &mut taker)?;
    Ok(taker.row)
}

/// Adds the branch with the sum to the page, as its last item.
fn add_store(row: StoreRow, total: u64, page: &mut ListPage) -> Result<(), AllocError>
    ensures { OnOk result ((texts : List Text) → HasTexts page.old texts
        → HasTexts page.new (texts ++ listed_store (record (seen_store row) { total = total }) ∷ [])) }
{
    let mut row = row;
    row.total = total;
    page.add_row(&row)
}

pub(crate) const SELECT_PAYMENTS: &str =
    "SELECT p.amount, r.number, f.category FROM payment AS p LEFT JOIN rental AS r ON r.branch = p.branch AND r.number = p.rental LEFT JOIN copy AS c ON c.branch = p.branch AND c.number = r.copy LEFT JOIN film AS f ON f.number = c.film WHERE p.branch = ?1 ORDER BY p.number";

/// Sums the branch's payments that name a rental. Returns none if there is no such payment.
fn rental_sum<S: Alter>(
    conn: &mut Connection<S>,
    branch: BranchNo,
) -> Result<Option<u64>, StoreFault>
    ensures sum { HasCleanDisk (state S.Store conn.new)
        → IfOk result (λ sum. (books : Books) → Holds (state S.Store conn.old) books → IsHeld books → sum ≡ rental_sum
        (shop_of branch books)) }
    ensures same { StaysSame S.Store conn.old conn.new result }
{
    let mut taker = SalesSum { sum: None };
    each_row(conn, SELECT_PAYMENTS, &[branch.get().to_sql()], &mut taker)?;
    Ok(taker.sum)
}

/// Adds the row's branch to the page, if its payments have a sum.
fn add_sold(row: StoreRow, sum: Option<u64>, page: &mut ListPage) -> Result<(), AllocError>
    ensures { OnOk result ((books : Books) (branch : ℕ) (texts : List Text)
        → Some (seen_store row) ≡ head (map (store_with books.catalogue 0) (at branch books.catalogue.branches))
        → sum ≡ rental_sum (shop_of branch books) → HasTexts page.old texts
        → HasTexts page.new (texts ++ map listed_store (sales_of_branch books branch))) }
{
    match sum {
        Some(total) => add_store(row, total, page),
        None => Ok(()),
    }
}

/// Adds the branch to the page, if any of its payments names a rental. Returns whether there is such a branch.
fn add_branch<S: Alter>(
    alloc: Global,
    conn: &mut Connection<S>,
    branch: BranchNo,
    page: &mut ListPage,
) -> Result<bool, StoreFault>
    ensures added { HasCleanDisk (state S.Store conn.new)
        → OnOk result ((books : Books) (texts : List Text) → Holds (state S.Store conn.old) books → IsHeld books
        → HasTexts page.old texts → HasTexts page.new (texts ++ map listed_store (sales_of_branch books branch))) }
    ensures there { HasCleanDisk (state S.Store conn.new)
        → IfOk result (λ there. (books : Books) → Holds (state S.Store conn.old) books → there ≡ not
        (lacks books.catalogue.branches branch)) }
    ensures same { StaysSame S.Store conn.old conn.new result }
{
    let Some(row) = find_store(alloc, conn, branch)? else {
        return Ok(false);
    };
    let sum = rental_sum(conn, branch)?;
    add_sold(row, sum, page)?;
    Ok(true)
}

/// Returns the branch's takings for rentals as the text of a list: the branch's row, or no row if no payment names a
/// rental. The database stays as it was, unless the store fails, which commits nothing.
pub fn sales_by_store<S: Alter>(
    alloc: Global,
    conn: &mut Connection<S>,
    branch: BranchNo,
) -> Result<String, StoreFault>
    ensures text { HasCleanDisk (state S.Store conn.new)
        → IfOk result (λ s. (books : Books) → Holds (state S.Store conn.old) books → IsHeld books → string_bytes s
        ≡ array (map listed_store (sales_by_store branch books.catalogue (shop_of branch books)))) }
    ensures same { StaysSame S.Store conn.old conn.new result }
{
    let mut page = ListPage::new(alloc);
    add_branch(alloc, conn, branch, &mut page)?;
    Ok(page.finish()?)
}

/// Adds to the page all branches that have a payment for a rental, in the order of their numbers.
fn add_branches<S: Alter>(
    alloc: Global,
    conn: &mut Connection<S>,
    page: &mut ListPage,
) -> Result<(), StoreFault>
    ensures added { HasCleanDisk (state S.Store conn.new)
        → OnOk result ((books : Books) → Holds (state S.Store conn.old) books → IsHeld books → HasTexts page.old []
        → HasTexts page.new (map listed_store (sales_of_first books books.catalogue.branches))) }
    ensures same { StaysSame S.Store conn.old conn.new result }
{
    'branches: for number in 1..=u32::MAX {
        let Some(branch) = BranchNo::new(number) else {
            return Err(StoreFault::Failed);
        };
        if !add_branch(alloc, conn, branch, page)? {
            return Ok(());
        }
    }
    Err(StoreFault::Failed)
}

/// Returns all branches' takings for rentals as the text of a list, in the order of their numbers. Each branch has the
/// row that `sales_by_store` gives it. The database stays as it was, unless the store fails, which commits nothing.
pub fn sales<S: Alter>(alloc: Global, conn: &mut Connection<S>) -> Result<String, StoreFault>
    ensures text { HasCleanDisk (state S.Store conn.new)
        → IfOk result (λ s. (books : Books) → Holds (state S.Store conn.old) books → IsHeld books → string_bytes s
        ≡ array (map listed_store
        (flat_map (λ (it : ℕ × Branch). sales_by_store it.0 books.catalogue (shop_of it.0 books))
        (numbered books.catalogue.branches)))) }
    ensures same { StaysSame S.Store conn.old conn.new result }
{
    let mut page = ListPage::new(alloc);
    add_branches(alloc, conn, &mut page)?;
    Ok(page.finish()?)
}
