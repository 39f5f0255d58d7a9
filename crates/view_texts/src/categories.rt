//! What a branch has taken for rentals of each category's films.

ghost use Rattle.std.specs.Prelude.{⊤, ◌≡◌, ◌≤◌, length, ◌+◌, List, [], ◌∷◌, ◌++◌, Option, IfSome, IfOk, OnOk, map, string_bytes};
ghost use Rattle.std.specs.List.{insert};
ghost use Rattle.sqlite.specs.Held.{state};
ghost use Rattle.sqlite.specs.State.{HasCleanDisk};
ghost use Rattle.sql_rows.specs.Calls.{StaysSame};
ghost use Rattle.shop_model.specs.Json.{array};
ghost use Rattle.shop_model.specs.Rows.{set_at};
ghost use Rattle.shop_model.specs.Values.{Text};
ghost use Rattle.shop_model.specs.Books.{Books, shop_of};
ghost use Rattle.shop_model.specs.Views.{listed_category, sells_more, insert_by, sorted_by, sales_by_category};
ghost use Rattle.shop_schema.specs.Shop.{Holds};
ghost use Rattle.shop_schema.specs.Held.{IsHeld};
ghost use Rattle.shop_views.specs.Sales.{seen_category};
ghost use Rattle.view_texts.specs.Payments.{PaidLine, shown_line, Sale, sale_in};
ghost use Rattle.view_texts.specs.CategorySums.{seen_sum, with_amount, summed, sold, sales_of_branch, HasNames, HasSums};

use crate::stores::SELECT_PAYMENTS;
use shop_schema::text_at;
use shop_types::{BranchNo, T45};
use shop_views::ListPage;
use shop_views::sales::CategoryRow;
use sql_rows::{StoreFault, TakesRows, each_row, number_at, number_or_null_at};
use sqlite::types::ToSql;
use sqlite::{Alter, Connection, Row};
use std::alloc::{AllocError, Global};

/// A category, and the sum of the payments for rentals of its films so far, if there are any.
#[derive(Drop)]
pub(crate) struct CategorySum {
    name: T45,
    sum: Option<u64>,
}

/// Returns the index in a list of the row with the number. Numbers count from 1.
fn place_of(number: u32) -> Option<usize>
    ensures { IfSome result (λ place. place + 1 ≡ number) }
{
    let place = number.checked_sub(1)?;
    Some(place as usize)
}

/// The categories so far, in the order of their numbers.
#[derive(Drop)]
pub(crate) struct CategoryNames {
    sums: Vec<CategorySum>,
}

impl TakesRows for CategoryNames {
    ghost took = { HasNames };

    ghost refuses = { λ _ _. ⊤ };

    fn take(&mut self, row: &Row) -> Result<(), StoreFault> {
        if place_of(number_at(row, 0)?) != Some(self.sums.len()) {
            return Err(StoreFault::Failed);
        }
        let category = CategorySum {
            name: text_at(row, 1)?,
            sum: None,
        };
        self.sums.push(category)?;
        Ok(())
    }
}

const SELECT_CATEGORIES: &str = "SELECT number, name FROM category ORDER BY number";

/// Reads the categories in the order of their numbers, without sums.
fn categories<S: Alter>(
    alloc: Global,
    conn: &mut Connection<S>,
) -> Result<Vec<CategorySum>, StoreFault>
    ensures sums { HasCleanDisk (state S.Store conn.new)
        → IfOk result (λ sums. (books : Books) → Holds (state S.Store conn.old) books → map seen_sum sums.items
        ≡ summed books.catalogue.categories []) }
    ensures same { StaysSame S.Store conn.old conn.new result }
{
    let mut taker = CategoryNames {
        sums: Vec::new(alloc),
    };
    each_row(conn, SELECT_CATEGORIES, &[], &mut taker)?;
    Ok(taker.sums)
}

/// Adds the amount to the sum of the category at the index.
fn add_amount(sums: &mut Vec<CategorySum>, place: usize, amount: u64) -> Result<(), StoreFault>
    ensures { OnOk result (map seen_sum sums.new.items
        ≡ set_at (place + 1) (with_amount amount) (map seen_sum sums.old.items)) }
{
    let Some(category) = sums.get_mut(place) else {
        return Err(StoreFault::Failed);
    };
    match category.sum.unwrap_or(0).checked_add(amount) {
        Some(sum) => {
            category.sum = Some(sum);
            Ok(())
        }
        None => Err(StoreFault::Failed),
    }
}

/// Adds the payment of the row, if its rental is there, to the sum of the category of the rental's film.
fn add_sale(sums: &mut Vec<CategorySum>, row: &Row) -> Result<(), StoreFault>
    ensures { OnOk result ((names : List Text) (line : PaidLine) (sales : List Sale) → row.now ≡ shown_line line
        → map seen_sum sums.old.items ≡ summed names sales
        → map seen_sum sums.new.items ≡ summed names (sales ++ sale_in line)) }
{
    if number_or_null_at(row, 1)?.is_none() {
        return Ok(());
    }
    let Some(number) = number_or_null_at(row, 2)? else {
        return Ok(());
    };
    let Some(place) = place_of(number) else {
        return Err(StoreFault::Failed);
    };
    add_amount(sums, place, u64::from(number_at(row, 0)?))
}

/// The categories with the sums of payments so far.
#[derive(Drop)]
pub(crate) struct CategorySums {
    sums: Vec<CategorySum>,
}

impl TakesRows for CategorySums {
    ghost took = { HasSums };

    ghost refuses = { λ _ _. ⊤ };

    fn take(&mut self, row: &Row) -> Result<(), StoreFault> {
        add_sale(&mut self.sums, row)
    }
}

/// Reads the branch's payments into the sums of the categories.
fn with_sales<S: Alter>(
    conn: &mut Connection<S>,
    branch: BranchNo,
    sums: Vec<CategorySum>,
) -> Result<Vec<CategorySum>, StoreFault>
    ensures sums { HasCleanDisk (state S.Store conn.new)
        → IfOk result (λ new. (books : Books) → Holds (state S.Store conn.old) books → IsHeld books
        → (names : List Text) → map seen_sum sums.items ≡ summed names [] → map seen_sum new.items ≡ summed names
        (sales_of_branch branch books)) }
    ensures same { StaysSame S.Store conn.old conn.new result }
{
    let mut taker = CategorySums { sums };
    each_row(conn, SELECT_PAYMENTS, &[branch.get().to_sql()], &mut taker)?;
    Ok(taker.sums)
}

/// Returns whether `a` comes before `b` in the list.
fn sells_more(a: &CategoryRow, b: &CategoryRow) -> bool
    ensures { result ≡ sells_more (seen_category a.now) (seen_category b.now) }
{
    a.total > b.total || a.total == b.total && a.category.as_str() <= b.category.as_str()
}

/// Finds the place of a new row among rows in their order.
fn place_among(rows: &[CategoryRow], row: &CategoryRow) -> usize
    ensures within { result ≤ length rows.now }
    ensures place { map seen_category (insert rows.now result row.now)
        ≡ insert_by sells_more (seen_category row.now) (map seen_category rows.now) }
{
    for place in 0..rows.len() {
        if sells_more(row, &rows[place]) {
            return place;
        }
    }
    rows.len()
}

/// Puts the row into its place among rows in their order.
fn put(rows: &mut Vec<CategoryRow>, row: CategoryRow) -> Result<(), AllocError>
    ensures { OnOk result (map seen_category rows.new.items
        ≡ insert_by sells_more (seen_category row) (map seen_category rows.old.items)) }
{
    let place = place_among(rows.as_slice(), &row);
    rows.insert(place, row)?;
    Ok(())
}

/// Returns the categories that have a sum, in their order.
fn in_order(alloc: Global, mut sums: Vec<CategorySum>) -> Result<Vec<CategoryRow>, AllocError>
    ensures { IfOk result (λ rows. map seen_category rows.items
        ≡ sorted_by sells_more (sold (map seen_sum sums.items))) }
{
    let mut rows = Vec::new(alloc);
    'sums: while let Some(category) = sums.pop() {
        let CategorySum { name, sum } = category;
        if let Some(total) = sum {
            put(
                &mut rows,
                CategoryRow {
                    category: name,
                    total,
                },
            )?;
        }
    }
    Ok(rows)
}

/// Returns the text of the list of the rows.
fn list_text(alloc: Global, rows: &[CategoryRow]) -> Result<String, AllocError>
    ensures { IfOk result (λ s. string_bytes s ≡ array (map listed_category (map seen_category rows.now))) }
{
    let mut page = ListPage::new(alloc);
    for row in rows {
        page.add_row(row)?;
    }
    page.finish()
}

/// Returns the text of the list of the categories that have a sum, in their order.
fn sums_text(alloc: Global, sums: Vec<CategorySum>) -> Result<String, AllocError>
    ensures { IfOk result (λ s. string_bytes s
        ≡ array (map listed_category (sorted_by sells_more (sold (map seen_sum sums.items))))) }
{
    let rows = in_order(alloc, sums)?;
    list_text(alloc, rows.as_slice())
}

/// Returns the branch's takings for rentals of each category's films, as the text of a list. The greatest total comes
/// first, and equal totals are in the byte order of their categories' names. A category without a payment for a rental
/// isn't listed. The database stays as it was, unless the store fails, which commits nothing.
pub fn sales_by_film_category<S: Alter>(
    alloc: Global,
    conn: &mut Connection<S>,
    branch: BranchNo,
) -> Result<String, StoreFault>
    ensures text { HasCleanDisk (state S.Store conn.new)
        → IfOk result (λ s. (books : Books) → Holds (state S.Store conn.old) books → IsHeld books → string_bytes s
        ≡ array (map listed_category (sales_by_category books.catalogue (shop_of branch books)))) }
    ensures same { StaysSame S.Store conn.old conn.new result }
{
    let sums = categories(alloc, conn)?;
    let sums = with_sales(conn, branch, sums)?;
    Ok(sums_text(alloc, sums)?)
}
