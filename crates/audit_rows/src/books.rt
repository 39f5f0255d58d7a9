//! The rows of books in the order in which they are checked.

ghost use Rattle.std.specs.Prelude.{◌≡◌, ◌↔◌, ◌&&◌, IsTrue, map};
ghost use Rattle.std.specs.List.{list_all};
ghost use Rattle.audit_rows.specs.Lists.{climbs, counts_from, front_of, back_of};
ghost use Rattle.audit_rows.specs.Ordered.{AreOrdered, are_shared_ordered, are_rows_ordered, are_others_ordered, are_consignments_ordered, is_ordered};
ghost use Rattle.audit_rows.specs.Shops.{is_among};
ghost use Rattle.audit_rows.specs.Tables.{OfEach, all_tables, checked_rows, lent_rows, is_in};

use crate::groups::{have_owners, split_branch};
use crate::order::{are_counted, climbs};
use crate::rows::{
    CheckedBranch, CheckedCast, CheckedCity, CheckedFilm, CheckedHeader, CheckedKept, CheckedLine,
    CheckedLot, CheckedRow, CheckedStaff,
};
use shop_types::{CityNo, CopyState, FilmNo, Key, Mark, Moment, Payment, Rental, T45, Token};

// ---- what is checked of rows of branches

/// The checked columns of a customer.
#[derive(Clone, Copy, Drop)]
pub struct CheckedCustomer {
    pub city: CityNo,
    pub created: Moment,
}

/// The checked columns of a copy.
#[derive(Clone, Copy, Drop)]
pub struct CheckedCopy {
    pub film: FilmNo,
    pub state: CopyState,
    pub mark: Mark,
}

/// The checked columns of a rental's terms: none. A row only shows that the terms are there, under the rental's number.
#[derive(Clone, Copy, Drop)]
pub struct CheckedTerms;

// ---- all rows

/// The rows of books, with the columns that soundness asks about. Shared rows are in the order of their numbers, which
/// are their places. All other rows are in the order of their keys.
#[derive(Drop)]
pub struct OrderedBooks {
    pub office_token: Token,
    /// The keys of head office's kept commands.
    pub office_keys: Vec<Key>,
    pub countries: Vec<T45>,
    pub languages: Vec<T45>,
    pub categories: Vec<T45>,
    pub cities: Vec<CheckedCity>,
    /// How many actors there are.
    pub actors: usize,
    pub films: Vec<CheckedFilm>,
    pub casts: Vec<CheckedCast>,
    pub branches: Vec<CheckedBranch>,
    pub staff: Vec<CheckedStaff>,
    pub customers: Vec<CheckedRow<CheckedCustomer>>,
    pub copies: Vec<CheckedRow<CheckedCopy>>,
    pub rentals: Vec<CheckedRow<Rental>>,
    /// The terms of rentals.
    pub terms: Vec<CheckedRow<CheckedTerms>>,
    pub payments: Vec<CheckedRow<Payment>>,
    pub lots: Vec<CheckedLot>,
    pub kept: Vec<CheckedKept>,
    /// The consignments, without their lines, by sender, addressee and number.
    pub headers: Vec<CheckedHeader>,
    /// The lines of consignments, by sender, addressee, number and line.
    pub lines: Vec<CheckedLine>,
}

// ---- rows of branches

/// The rows of all branches, or of some, in those tables whose rows have a branch and a number.
#[derive(Clone, Copy)]
pub struct NumberedRows<'a> {
    pub customers: &'a [CheckedRow<CheckedCustomer>],
    pub copies: &'a [CheckedRow<CheckedCopy>],
    pub rentals: &'a [CheckedRow<Rental>],
    pub terms: &'a [CheckedRow<CheckedTerms>],
    pub payments: &'a [CheckedRow<Payment>],
}

impl OrderedBooks {
    /// Returns the rows of all branches.
    pub fn numbered(&self) -> NumberedRows<'_>
        ensures { OfEach (λ t. lent_rows result t ≡ checked_rows self.now t) }
    {
        NumberedRows {
            customers: self.customers.as_slice(),
            copies: self.copies.as_slice(),
            rentals: self.rentals.as_slice(),
            terms: self.terms.as_slice(),
            payments: self.payments.as_slice(),
        }
    }
}

impl<'a> NumberedRows<'a> {
    /// Returns whether the rows of each table are in the order of their keys.
    fn are_ordered(&self) -> bool
        ensures { result ≡ are_rows_ordered (lent_rows self.now) }
    {
        climbs(self.customers)
            && climbs(self.copies)
            && climbs(self.rentals)
            && climbs(self.terms)
            && climbs(self.payments)
    }

    /// Returns whether each table's rows are numbered 1, 2, ..
    pub fn are_counted(&self) -> bool
        ensures { result ≡ list_all (λ t. counts_from 1 (map (λ row. row.number) (lent_rows self.now t))) all_tables }
    {
        are_counted(self.customers)
            && are_counted(self.copies)
            && are_counted(self.rentals)
            && are_counted(self.terms)
            && are_counted(self.payments)
    }

    /// Returns whether every row is of one of so many branches.
    pub fn have_owners(&self, branches: usize) -> bool
        ensures { result
            ≡ list_all (λ t. list_all (λ row. is_among branches row.branch) (lent_rows self.now t)) all_tables }
    {
        have_owners(self.customers, branches)
            && have_owners(self.copies, branches)
            && have_owners(self.rentals, branches)
            && have_owners(self.terms, branches)
            && have_owners(self.payments, branches)
    }

    /// Splits off the leading rows of the branch: returns them, and all rows after them.
    pub fn split(self, branch: u32) -> (NumberedRows<'a>, NumberedRows<'a>)
        ensures front { OfEach (λ t. lent_rows result.0 t ≡ front_of (is_in branch) (lent_rows self.entry t)) }
        ensures back { OfEach (λ t. lent_rows result.1 t ≡ back_of (is_in branch) (lent_rows self.entry t)) }
    {
        let (customers, more_customers) = split_branch(self.customers, branch);
        let (copies, more_copies) = split_branch(self.copies, branch);
        let (rentals, more_rentals) = split_branch(self.rentals, branch);
        let (terms, more_terms) = split_branch(self.terms, branch);
        let (payments, more_payments) = split_branch(self.payments, branch);
        let front = NumberedRows {
            customers,
            copies,
            rentals,
            terms,
            payments,
        };
        let back = NumberedRows {
            customers: more_customers,
            copies: more_copies,
            rentals: more_rentals,
            terms: more_terms,
            payments: more_payments,
        };
        (front, back)
    }
}

// ---- order

/// Returns whether the keys of head office's kept commands, and the keys of casts, climb.
fn are_shared_ordered(books: &OrderedBooks) -> bool
    ensures { result ≡ are_shared_ordered books.now }
{
    let keys = books.office_keys.as_slice();
    let casts = books.casts.as_slice();
    climbs(keys) && climbs(casts)
}

/// Returns whether the keys of lots, and the keys of kept commands, climb.
fn are_others_ordered(books: &OrderedBooks) -> bool
    ensures { result ≡ are_others_ordered books.now }
{
    let lots = books.lots.as_slice();
    let kept = books.kept.as_slice();
    climbs(lots) && climbs(kept)
}

/// Returns whether the keys of consignments, and the keys of their lines, climb.
fn are_consignments_ordered(books: &OrderedBooks) -> bool
    ensures { result ≡ are_consignments_ordered books.now }
{
    let headers = books.headers.as_slice();
    let lines = books.lines.as_slice();
    climbs(headers) && climbs(lines)
}

/// Returns whether the keys of all rows climb, table by table.
fn is_ordered(books: &OrderedBooks) -> bool
    ensures { result ≡ is_ordered books.now }
{
    are_shared_ordered(books)
        && books.numbered().are_ordered()
        && are_others_ordered(books)
        && are_consignments_ordered(books)
}

/// Returns whether each table's rows are in the order of their keys, and no two of its rows have the same key.
pub fn are_ordered(books: &OrderedBooks) -> bool
    ensures { IsTrue result ↔ AreOrdered books.now }
{
    is_ordered(books)
}
