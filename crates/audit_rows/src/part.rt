//! Whether what one branch has is sound.

ghost use Rattle.std.specs.Prelude.{◌≡◌, ◌&&◌, ◌==◌, IfOk};
ghost use Rattle.audit_rows.specs.Parts.{is_termed, is_sized, is_timely, is_held, has_good_rows, is_good_part, rows_of};

use crate::branches::BranchRows;
use crate::held::are_held_here;
use crate::links::have_links;
use crate::shop::{
    are_created_by, are_held_once, are_paid_by, are_rented_by, payments_rise, rentals_are_apart,
    rentals_rise,
};
use crate::{CheckedBranch, OrderedBooks};
use shop_types::NoMemory;
use std::alloc::Global;

/// The most kept commands of a caller, and the most copies of a branch.
const MOST: usize = 1_000_000;

/// If rentals and terms are both numbered 1, 2, .., returns whether each rental has its terms, and no others are there.
fn are_termed(part: &BranchRows<'_>) -> bool
    ensures { result ≡ is_termed (rows_of part.now) }
{
    part.rows.terms.len() == part.rows.rentals.len()
}

/// Returns whether there are no more of anything than there may be.
fn are_few(part: &BranchRows<'_>) -> bool
    ensures { result ≡ is_sized (rows_of part.now) }
{
    part.kept <= MOST
        && part.rows.copies.len() <= MOST
        && part.rows.customers.len() <= part.kept
        && part.rows.rentals.len() <= part.kept
        && part.rows.payments.len() <= part.kept
        && part.lots <= part.kept
        && part.sent <= part.kept
}

/// Returns whether moments rise with the numbers, and none is after the last one.
fn are_timely(row: &CheckedBranch, part: &BranchRows<'_>) -> bool
    ensures { result ≡ is_timely row.now.last (rows_of part.now) }
{
    are_created_by(row.last, part.rows.customers)
        && are_rented_by(row.last, part.rows.rentals)
        && are_paid_by(row.last, part.rows.payments)
        && rentals_rise(part.rows.rentals)
        && payments_rise(part.rows.payments)
}

/// Returns whether numbers, sizes and moments are as they have to be, and what the rows name is there.
fn has_good_rows(
    books: &OrderedBooks,
    branch: u32,
    row: &CheckedBranch,
    part: &BranchRows<'_>,
) -> bool
    ensures { result ≡ has_good_rows books.now branch row.now.last (rows_of part.now) }
{
    part.rows.are_counted()
        && are_termed(part)
        && are_few(part)
        && are_timely(row, part)
        && have_links(books, branch, part)
}

/// Returns whether copies that are out are here, each once, and no two rentals are one.
fn are_held(alloc: Global, part: &BranchRows<'_>) -> Result<bool, NoMemory>
    ensures { IfOk result (λ is. is ≡ is_held (rows_of part.now)) }
{
    if !are_held_here(part.rows.rentals, part.rows.copies) {
        return Ok(false);
    }
    if !are_held_once(alloc, part.rows.rentals)? {
        return Ok(false);
    }
    rentals_are_apart(alloc, part.rows.rentals)
}

/// Returns whether what the branch has is sound, as far as it alone can show it.
pub fn is_good(
    alloc: Global,
    books: &OrderedBooks,
    branch: u32,
    row: &CheckedBranch,
    part: &BranchRows<'_>,
) -> Result<bool, NoMemory>
    ensures { IfOk result (λ is. is ≡ is_good_part books.now branch row.now.last (rows_of part.now)) }
{
    if !has_good_rows(books, branch, row, part) {
        return Ok(false);
    }
    are_held(alloc, part)
}
