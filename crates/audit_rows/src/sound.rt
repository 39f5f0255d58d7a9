//! Whether books are sound.

ghost use Rattle.std.specs.Prelude.{◌≡◌, ◌↔◌, ◌≤◌, true, IsTrue, IfOk, List, length, map};
ghost use Rattle.std.specs.List.{list_all};
ghost use Rattle.shop_model.specs.Values.{Rules};
ghost use Rattle.shop_model.specs.Books.{Books, Consignment};
ghost use Rattle.shop_model.specs.Sound.{IsSound, widest};
ghost use Rattle.audit_rows.specs.Marked.{AreInCustody};
ghost use Rattle.audit_rows.specs.Seen.{seen_copy, seen_line};
ghost use Rattle.audit_rows.specs.Shops.{is_among};
ghost use Rattle.audit_rows.specs.Tables.{OfEach, checked_rows, lent_rows};
ghost use Rattle.audit_rows.specs.Consignments.{are_settled, pairs_follow};
ghost use Rattle.audit_rows.specs.Checked.{are_good_consignments, AreChecked};
ghost use Rattle.audit_rows.specs.Catalogues.{is_good_catalogue};
ghost use Rattle.audit_rows.specs.Parts.{are_good_from, is_owned, are_others_owned, are_consignments_owned};
ghost use Rattle.audit_rows.specs.Ordered.{AreOrdered, AreConsignmentsOf, HaveOrderedRows};

use crate::branches::{Rest, take_branch};
use crate::catalogue::is_good_catalogue;
use crate::consignments::{are_settled, pairs_follow, places_count};
use crate::part::is_good;
use crate::{CheckedHeader, OrderedBooks, are_in_custody, have_owners, is_among};
use shop_types::NoMemory;
use std::alloc::Global;

// ---- branch columns

/// Returns whether every consignment is to one of so many branches.
fn have_addressees(headers: &[CheckedHeader], branches: usize) -> bool
    ensures { result ≡ list_all (λ row. is_among branches row.addressee) headers.now }
{
    headers
        .iter()
        .all(|row| is_among(branches, row.addressee.get()))
}

/// Returns whether the branches of lots and kept commands are there.
fn are_others_owned(books: &OrderedBooks) -> bool
    ensures { result ≡ are_others_owned books.now }
{
    let branches = books.branches.len();
    let lots = books.lots.as_slice();
    let kept = books.kept.as_slice();
    have_owners(lots, branches) && have_owners(kept, branches)
}

/// Returns whether the senders and addressees of consignments are there.
fn are_consignments_owned(books: &OrderedBooks) -> bool
    ensures { result ≡ are_consignments_owned books.now }
{
    let branches = books.branches.len();
    let headers = books.headers.as_slice();
    have_owners(headers, branches) && have_addressees(headers, branches)
}

/// Returns whether every branch that a row names is there.
fn are_owned(books: &OrderedBooks) -> bool
    ensures { result ≡ is_owned books.now }
{
    books.numbered().have_owners(books.branches.len())
        && are_others_owned(books)
        && are_consignments_owned(books)
}

// ---- one branch after another

/// Returns all rows of branches.
fn whole(books: &OrderedBooks) -> Rest<'_>
    ensures rows { OfEach (λ t. lent_rows result.rows t ≡ checked_rows books.now t) }
    ensures lots { result.lots.now ≡ books.now.lots.items }
    ensures kept { result.kept.now ≡ books.now.kept.items }
    ensures headers { result.headers.now ≡ books.now.headers.items }
{
    Rest {
        rows: books.numbered(),
        lots: books.lots.as_slice(),
        kept: books.kept.as_slice(),
        headers: books.headers.as_slice(),
    }
}

/// Returns whether what each branch has is sound.
fn are_parts_good(alloc: Global, books: &OrderedBooks) -> Result<bool, NoMemory>
    requires ordered { AreOrdered books.now }
    requires owned { is_owned books.now ≡ true }
    requires few { length books.now.branches.items ≤ 1_000_003 }
    ensures { IfOk result (λ is. is ≡ are_good_from books.now 1 books.now.branches.items) }
{
    let mut rest = whole(books);
    let mut branch = 1;
    for row in books.branches.as_slice() {
        let (part, more) = take_branch(rest, branch);
        if !is_good(alloc, books, branch, row, &part)? {
            return Ok(false);
        }
        rest = more;
        branch += 1;
    }
    Ok(true)
}

// ---- consignments, and custody

/// Returns whether consignments are sound.
fn are_consignments_good(alloc: Global, books: &OrderedBooks) -> Result<bool, NoMemory>
    ensures { IfOk result (λ is. (its : List Consignment) → AreConsignmentsOf books.now its
        → is ≡ are_good_consignments books.now its) }
{
    let headers = books.headers.as_slice();
    if are_settled(books.films.len(), headers, books.lines.as_slice()) && pairs_follow(headers) {
        places_count(alloc, headers)
    } else {
        Ok(false)
    }
}

/// Returns whether each mark is made, in one place, and with one film.
fn have_custody(alloc: Global, books: &OrderedBooks) -> Result<bool, NoMemory>
    ensures { IfOk result (λ is. IsTrue is
        ↔ AreInCustody (map seen_copy books.now.copies.items) (map seen_line books.now.lines.items)) }
{
    let copies = books.copies.as_slice();
    let lines = books.lines.as_slice();
    are_in_custody(alloc, copies, lines)
}

// ---- all of it

/// Returns whether the rows pass each check.
fn are_checked(alloc: Global, books: &OrderedBooks) -> Result<bool, NoMemory>
    requires { AreOrdered books.now }
    ensures { IfOk result (λ is. (its : List Consignment) → AreConsignmentsOf books.now its
        → (IsTrue is ↔ AreChecked books.now its)) }
{
    if !is_good_catalogue(alloc, books)? {
        return Ok(false);
    }
    if !are_owned(books) {
        return Ok(false);
    }
    if !are_consignments_good(alloc, books)? {
        return Ok(false);
    }
    if !have_custody(alloc, books)? {
        return Ok(false);
    }
    are_parts_good(alloc, books)
}

/// Returns whether books that have the rows are sound.
pub fn is_sound(alloc: Global, books: &OrderedBooks) -> Result<bool, NoMemory>
    requires { AreOrdered books.now }
    ensures { IfOk result (λ is. (rules : Rules) (whole : Books) → HaveOrderedRows books.now whole
        → (IsTrue is ↔ IsSound (widest rules) whole)) }
{
    are_checked(alloc, books)
}
