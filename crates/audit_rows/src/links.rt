//! Whether what one branch's rows name is there.

ghost use Rattle.std.specs.Prelude.{◌≡◌, ◌&&◌, ◌==◌, true, map};
ghost use Rattle.std.specs.List.{list_any, list_all};
ghost use Rattle.shop_model.specs.Rows.{at};
ghost use Rattle.shop_model.specs.Links.{pays_for};
ghost use Rattle.shop_types.specs.Seen.{seen_rental, seen_payment};
ghost use Rattle.audit_rows.specs.Shops.{is_among};
ghost use Rattle.audit_rows.specs.Parts.{is_staff_row, has_places, has_people, has_payers, has_links, rows_of};

use crate::books::{CheckedCopy, CheckedCustomer};
use crate::branches::BranchRows;
use crate::{CheckedRow, CheckedStaff, OrderedBooks, is_among};
use shop_types::{CustomerNo, Payment, Rental, RentalNo, StaffNo};

/// Returns whether the staff of that number, which is its place, is of the branch.
pub fn is_staff_of(staff: &[CheckedStaff], branch: u32, number: StaffNo) -> bool
    ensures { result ≡ is_staff_row branch staff.now number }
{
    match staff.get(number.get() as usize - 1) {
        Some(row) => row.branch.get() == branch,
        None => false,
    }
}

/// Returns whether the rental of that number, which is its place, is the customer's.
fn is_rental_of(rentals: &[CheckedRow<Rental>], number: RentalNo, customer: CustomerNo) -> bool
    ensures { result
        ≡ list_any (λ it. it.customer == customer) (at number (map (λ row. seen_rental row.it) rentals.now)) }
{
    match rentals.get(number.get() as usize - 1) {
        Some(row) => row.it.customer.get() == customer.get(),
        None => false,
    }
}

/// Returns whether the payment is for a rental of its customer, or for none.
fn is_for_own(rentals: &[CheckedRow<Rental>], row: &CheckedRow<Payment>) -> bool
    ensures { result ≡ pays_for (map (λ row. seen_rental row.it) rentals.now) (seen_payment row.now.it) }
{
    match row.it.rental {
        Some(number) => is_rental_of(rentals, number, row.it.customer),
        None => true,
    }
}

/// Returns whether every customer lives in one of so many cities.
fn customers_have_cities(customers: &[CheckedRow<CheckedCustomer>], cities: usize) -> bool
    ensures { result ≡ list_all (λ row. is_among cities row.it.city) customers.now }
{
    customers
        .iter()
        .all(|row| is_among(cities, row.it.city.get()))
}

/// Returns whether every copy is of one of so many films.
fn copies_have_films(copies: &[CheckedRow<CheckedCopy>], films: usize) -> bool
    ensures { result ≡ list_all (λ row. is_among films row.it.film) copies.now }
{
    copies.iter().all(|row| is_among(films, row.it.film.get()))
}

/// Returns whether every customer's city and every copy's film is there.
fn have_places(books: &OrderedBooks, part: &BranchRows<'_>) -> bool
    ensures { result ≡ has_places books.now (rows_of part.now) }
{
    customers_have_cities(part.rows.customers, books.cities.len())
        && copies_have_films(part.rows.copies, books.films.len())
}

/// Returns whether every rental's copy and customer is there, and its staff is of the branch.
fn have_people(staff: &[CheckedStaff], branch: u32, part: &BranchRows<'_>) -> bool
    ensures { result ≡ has_people branch staff.now (rows_of part.now) }
{
    let (copies, customers) = (part.rows.copies.len(), part.rows.customers.len());
    part.rows.rentals.iter().all(|row| {
        is_among(copies, row.it.copy.get())
            && is_among(customers, row.it.customer.get())
            && is_staff_of(staff, branch, row.it.staff)
    })
}

/// Returns whether every payment's customer is there, its staff is of the branch, and its rental is the customer's, if
/// it names one.
fn have_payers(staff: &[CheckedStaff], branch: u32, part: &BranchRows<'_>) -> bool
    ensures { result ≡ has_payers branch staff.now (rows_of part.now) }
{
    let (rentals, customers) = (part.rows.rentals, part.rows.customers.len());
    part.rows.payments.iter().all(|row| {
        is_among(customers, row.it.customer.get())
            && is_staff_of(staff, branch, row.it.staff)
            && is_for_own(rentals, row)
    })
}

/// Returns whether all that the branch's rows name is there.
pub fn have_links(books: &OrderedBooks, branch: u32, part: &BranchRows<'_>) -> bool
    ensures { result ≡ has_links books.now branch (rows_of part.now) }
{
    let staff = books.staff.as_slice();
    have_places(books, part) && have_people(staff, branch, part) && have_payers(staff, branch, part)
}
