//! Checks the tables of counts, and the table of terms, against rows in order.

ghost use Rattle.std.specs.Prelude.{◌≡◌, ◌↔◌, ◌+◌, ◌≤◌, ◌==◌, ◌&&◌, [], ◌∷◌, ◌++◌, IsTrue, true, map, length, get_or, IsPermutation, IfOk, OnOk};
ghost use Rattle.sql_rows.specs.Rows.{number_value};
ghost use Rattle.sqlite_value.specs.Order.{column};
ghost use Rattle.sqlite_value.specs.Value.{owned};
ghost use Rattle.shop_schema.specs.RowValues.{counter_columns, out_columns};
ghost use Rattle.audit_rows.specs.Lists.{climbs};
ghost use Rattle.audit_rows.specs.Ordered.{AreOrdered};
ghost use Rattle.audit_rows.specs.declared.rows.CheckedHeader.{CheckedHeader};
ghost use Rattle.books_audit.specs.Read.{HaveCounts, are_termed, counters_in, counts_of_branch, outs_among, pairs_among};
ghost use Rattle.books_audit.specs.Triples.{IsWhole, IsTriple, OneTriple, triple_columns, seen_pair, AreMany, AreTallies};

use crate::listed::{Listed, read_rows};
use crate::tables::{COUNTERS, OUTS, PAIRS, TableRows};
use audit_rows::books::CheckedTerms;
use audit_rows::{CheckedHeader, CheckedRow, Keyed, OrderedBooks, Owned, same_bag};
use shop_types::{NoMemory, Rental};
use sql_rows::{StoreFault, fault_of};
use sqlite::Row;
use sqlite::types::ValueRef;
use std::alloc::Global;
use std::cmp::Ordering;

/// A row of a table of counts, which has three numbers.
#[derive(Clone, Copy, Drop)]
pub(crate) struct Triple {
    pub(crate) first: u64,
    pub(crate) second: u64,
    pub(crate) third: u64,
}

/// Returns whether the value is a number from 0 on.
fn is_number(value: ValueRef<'_>) -> bool
    ensures { IsTrue result ↔ IsWhole (owned value.entry) }
{
    match value {
        ValueRef::Int(n) => match u64::try_from(n) {
            Ok(_) => true,
            Err(_) => false,
        },
        _ => false,
    }
}

/// Returns whether the column is there and has such a number.
fn is_number_at(row: &Row, at: usize) -> bool
    ensures { IsTrue result ↔ ((at + 1 ≤ length row.now) × IsWhole (column row.now at)) }
{
    match row.get_ref(at) {
        Ok(value) => is_number(value),
        Err(_) => false,
    }
}

/// Reads the number in the column.
fn number_in(row: &Row, at: usize) -> Result<u64, StoreFault>
    ensures { IfOk result (λ n. column row.now at ≡ number_value n) }
{
    match row.get(at) {
        Ok(number) => Ok(number),
        Err(error) => Err(fault_of(error)),
    }
}

/// Returns whether the row has three numbers.
fn is_triple(row: &Row) -> bool
    ensures { IsTrue result ↔ OneTriple row.now }
{
    if row.column_count() != 3 {
        return false;
    }
    if !is_number_at(row, 0) {
        return false;
    }
    if !is_number_at(row, 1) {
        return false;
    }
    is_number_at(row, 2)
}

impl Listed for Triple {
    ghost is_row = { IsTriple };

    fn read(row: &Row) -> Result<Option<Triple>, StoreFault> {
        if !is_triple(row) {
            return Ok(None);
        }
        Ok(Some(Triple {
            first: number_in(row, 0)?,
            second: number_in(row, 1)?,
            third: number_in(row, 2)?,
        }))
    }
}

impl Keyed for Triple {
    ghost key = { λ row. row.first ∷ row.second ∷ row.third ∷ [] };

    fn compare(&self, other: &Triple) -> Ordering {
        let first = self.first.cmp(&other.first);
        let second = self.second.cmp(&other.second);
        first.then(second).then(self.third.cmp(&other.third))
    }
}

/// Returns whether the table has exactly these rows, in any order.
fn has_rows(alloc: Global, rows: &[Row], wanted: Vec<Triple>) -> Result<bool, NoMemory>
    ensures { IfOk result (λ is. IsTrue is ↔ IsPermutation rows.now (map triple_columns wanted.items)) }
{
    let Some(mut found) = read_rows::<Triple>(alloc, rows)? else {
        return Ok(false);
    };
    let mut wanted = wanted;
    Ok(same_bag(&mut found, &mut wanted))
}

/// Makes a row for each open rental.
fn outs(alloc: Global, rentals: &[CheckedRow<Rental>]) -> Result<Vec<Triple>, NoMemory>
    ensures { IfOk result (λ all. map triple_columns all.items ≡ map out_columns (outs_among rentals.now)) }
{
    let mut all = Vec::new(alloc);
    for row in rentals {
        if row.it.returned.is_none() {
            let out = Triple {
                first: u64::from(row.branch.get()),
                second: u64::from(row.it.copy.get()),
                third: u64::from(row.number),
            };
            if all.push(out).is_err() {
                return Err(NoMemory);
            }
        }
    }
    Ok(all)
}

/// Makes the row of a pair of branches, with the count of its consignments.
fn pair_of(header: &CheckedHeader, count: u64) -> Triple
    ensures { seen_pair result ≡ record { source = header.now.source; addressee = header.now.addressee; last = count } }
{
    Triple {
        first: u64::from(header.source.get()),
        second: u64::from(header.addressee.get()),
        third: count,
    }
}

/// Returns whether both consignments are of the same pair of branches.
fn is_same_pair(first: &CheckedHeader, second: &CheckedHeader) -> bool
    ensures { result ≡ (second.now.source == first.now.source && second.now.addressee == first.now.addressee) }
{
    second.source.get() == first.source.get() && second.addressee.get() == first.addressee.get()
}

/// Makes a row for each pair of branches that has a consignment. In the order of keys, a pair's consignments are
/// neighbours.
fn pairs(alloc: Global, headers: &[CheckedHeader]) -> Result<Vec<Triple>, NoMemory>
    requires { climbs (map (λ (row : CheckedHeader). row.source ∷ row.addressee ∷ row.number ∷ []) headers.now) ≡ true }
    ensures { IfOk result (λ all. map seen_pair all.items ≡ pairs_among [] headers.now) }
{
    let mut all = Vec::new(alloc);
    let Some((first, rest)) = headers.split_first() else {
        return Ok(all);
    };
    let mut last = first;
    let mut count = 1u64;
    for header in rest {
        if is_same_pair(last, header) {
            count += 1;
            last = header;
            continue;
        }
        if all.push(pair_of(last, count)).is_err() {
            return Err(NoMemory);
        }
        count = 1;
        last = header;
    }
    if all.push(pair_of(last, count)).is_err() {
        return Err(NoMemory);
    }
    Ok(all)
}

/// Counts each branch's rows. The count of branch n is at index n.
fn count_each<T: Owned>(alloc: Global, rows: &[T], places: usize) -> Result<Vec<u64>, NoMemory>
    ensures { IfOk result (λ counts. AreMany T.owner rows.now places counts.items) }
{
    let mut counts = vec![in alloc; 0u64; places]?;
    for row in rows {
        if let Some(count) = counts.get_mut(row.owner() as usize) {
            *count += 1;
        }
    }
    Ok(counts)
}

/// The numbers of rows of each kind, by branch.
#[derive(Drop)]
pub(crate) struct Tallies {
    pub(crate) customers: Vec<u64>,
    pub(crate) copies: Vec<u64>,
    pub(crate) rentals: Vec<u64>,
    pub(crate) payments: Vec<u64>,
    pub(crate) kept: Vec<u64>,
}

fn tally(alloc: Global, rows: &OrderedBooks) -> Result<Tallies, NoMemory>
    ensures { IfOk result (AreTallies rows.now) }
{
    let places = rows.branches.len() + 1;
    let customers = count_each(alloc, rows.customers.as_slice(), places)?;
    let copies = count_each(alloc, rows.copies.as_slice(), places)?;
    let rentals = count_each(alloc, rows.rentals.as_slice(), places)?;
    let payments = count_each(alloc, rows.payments.as_slice(), places)?;
    let kept = count_each(alloc, rows.kept.as_slice(), places)?;
    Ok(Tallies {
        customers,
        copies,
        rentals,
        payments,
        kept,
    })
}

/// Adds a row of the table of counts of rows.
fn add(all: &mut Vec<Triple>, caller: u64, kind: u64, last: u64) -> Result<(), NoMemory>
    ensures { OnOk result (map triple_columns all.new.items
        ≡ map triple_columns all.old.items ++ counter_columns (record { caller = caller; kind = kind; last = last })
        ∷ []) }
{
    let row = Triple {
        first: caller,
        second: kind,
        third: last,
    };
    match all.push(row) {
        Ok(()) => Ok(()),
        Err(_) => Err(NoMemory),
    }
}

/// Adds the five rows of a branch.
fn add_branch(
    all: &mut Vec<Triple>,
    branch: usize,
    rows: &OrderedBooks,
    tallies: &Tallies,
) -> Result<(), NoMemory>
    requires tallies { AreTallies rows.now tallies.now }
    requires branch { branch ≤ length rows.now.branches.items }
    ensures { OnOk result (map triple_columns all.new.items
        ≡ map triple_columns all.old.items ++ map counter_columns (counts_of_branch rows.now branch)) }
{
    let caller = branch as u64;
    add(all, caller, 0, tallies.customers[branch])?;
    add(all, caller, 1, tallies.copies[branch])?;
    add(all, caller, 2, tallies.rentals[branch])?;
    add(all, caller, 3, tallies.payments[branch])?;
    add(all, caller, 4, tallies.kept[branch])
}

/// Makes the rows of the table of counts: one row for head office, and five rows for each branch.
fn counters(alloc: Global, rows: &OrderedBooks) -> Result<Vec<Triple>, NoMemory>
    ensures { IfOk result (λ all. map triple_columns all.items ≡ map counter_columns (counters_in rows.now)) }
{
    let tallies = tally(alloc, rows)?;
    let mut all = Vec::new(alloc);
    add(&mut all, 0, 4, rows.office_keys.len() as u64)?;
    for i in 0..rows.branches.len() {
        add_branch(&mut all, i + 1, rows, &tallies)?;
    }
    Ok(all)
}

/// Returns whether the terms belong to the rental.
fn is_of(terms: &CheckedRow<CheckedTerms>, rental: &CheckedRow<Rental>) -> bool
    ensures { result ≡ (terms.now.branch == rental.now.branch && terms.now.number == rental.now.number) }
{
    terms.branch.get() == rental.branch.get() && terms.number == rental.number
}

/// Returns whether each rental has one row of terms, under its branch and number, and there are no other rows of terms.
/// Both lists are in the order of their keys.
fn are_termed(terms: &[CheckedRow<CheckedTerms>], rentals: &[CheckedRow<Rental>]) -> bool
    ensures { result ≡ are_termed terms.now rentals.now }
{
    let mut rest = rentals;
    for row in terms {
        let Some((first, more)) = rest.split_first() else {
            return false;
        };
        if !is_of(row, first) {
            return false;
        }
        rest = more;
    }
    rest.is_empty()
}

/// Returns whether the tables of counts have the counts of the rows, and each rental has its terms.
pub(crate) fn have_counts(
    alloc: Global,
    tables: &TableRows,
    rows: &OrderedBooks,
) -> Result<bool, NoMemory>
    requires { AreOrdered rows.now }
    ensures { IfOk result (λ is. IsTrue is ↔ HaveCounts tables.now rows.now) }
{
    let terms = rows.terms.as_slice();
    let rentals = rows.rentals.as_slice();
    if !are_termed(terms, rentals) {
        return Ok(false);
    }
    let outs = outs(alloc, rentals)?;
    if !has_rows(alloc, tables.of(OUTS), outs)? {
        return Ok(false);
    }
    let pairs = pairs(alloc, rows.headers.as_slice())?;
    if !has_rows(alloc, tables.of(PAIRS), pairs)? {
        return Ok(false);
    }
    let counters = counters(alloc, rows)?;
    has_rows(alloc, tables.of(COUNTERS), counters)
}
