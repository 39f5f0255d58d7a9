//! The rent by which a copy is out, and the customer of a rental.

ghost use Rattle.std.specs.Prelude.{◌≡◌, ◌==◌, [], ◌∷◌, ⊤, not, length, IfOk, List, option_map};
ghost use Rattle.sqlite_value.specs.Order.{column};
ghost use Rattle.sql_rows.specs.Calls.{DoesInside};
ghost use Rattle.sql_rows.specs.Rows.{number_value};
ghost use Rattle.shop_model.specs.Values.{Command};
ghost use Rattle.till_book.specs.Saying.{Say};
ghost use Rattle.till_book.specs.Marks.{rented_in, returned_in};
ghost use Rattle.till_book.specs.Journal.{Finds, entries_in};
ghost use Rattle.till_book.specs.Held.{last_rent, rent_named, seen_rent, is_returned_after, held_if};
ghost use Rattle.till_book.specs.Register.{IsHeld, IsRenter};

use shop_types::{CopyNo, CustomerNo, RentalNo, RowNumber};
use sql_rows::{StoreFault, Stored, number_at, query, query_one};
use sqlite::types::ToSql;
use sqlite::{Alter, Row, Transaction};

/// A copy's rental, and the customer who rented it.
#[derive(Clone, Copy)]
pub struct HeldRental {
    pub rental: RentalNo,
    pub customer: CustomerNo,
}

/// An accepted rent, by its entry's number.
#[derive(Clone, Copy, Drop)]
struct RentRow {
    number: u32,
    rental: RentalNo,
    customer: CustomerNo,
}

/// Reads the number of a row in the column.
fn row_number_at<const KIND: u8>(row: &Row, at: usize) -> Result<RowNumber<KIND>, StoreFault>
    ensures { IfOk result (λ n. column row.now at ≡ number_value n) }
{
    match RowNumber::new(number_at(row, at)?) {
        Some(number) => Ok(number),
        None => Err(StoreFault::Failed),
    }
}

impl Stored for RentRow {
    ghost columns = { λ row. number_value row.number ∷ number_value row.rental ∷ number_value row.customer ∷ [] };

    ghost fits = { λ _. ⊤ };

    ghost refuses = { λ _. ⊤ };

    fn read(row: &Row) -> Result<RentRow, StoreFault> {
        if row.column_count() != 3 {
            return Err(StoreFault::Failed);
        }
        Ok(RentRow {
            number: number_at(row, 0)?,
            rental: row_number_at(row, 1)?,
            customer: row_number_at(row, 2)?,
        })
    }
}

const SELECT_RENT: &str =
    "SELECT number, rental, customer FROM rented WHERE copy = ?1 ORDER BY number DESC LIMIT 1";

/// Returns the copy's last accepted rent, if there is one.
fn last_rent<S: Alter>(
    tx: &mut Transaction<'_, S>,
    copy: CopyNo,
) -> Result<Option<RentRow>, StoreFault>
    ensures { DoesInside S.Store tx.old.conn tx.new.conn result
        (λ it. Finds (λ journal. (commands : List Command) → Say journal.entries commands
        → it ≡ option_map seen_rent (last_rent copy (rented_in (entries_in commands journal))))) }
{
    query_one(tx, SELECT_RENT, &[copy.get().to_sql()])
}

/// Returns whether there is a row.
fn has_row(rows: &[Row]) -> bool
    ensures { result ≡ not (length rows.now == 0) }
{
    !rows.is_empty()
}

const SELECT_RETURN: &str = "SELECT number FROM returned WHERE rental = ?1 AND number > ?2";

/// Returns whether an entry after that number is an accepted return of the rental.
fn is_returned<S: Alter>(
    tx: &mut Transaction<'_, S>,
    rental: RentalNo,
    number: u32,
) -> Result<bool, StoreFault>
    ensures { DoesInside S.Store tx.old.conn tx.new.conn result
        (λ is. Finds (λ journal. (commands : List Command) → Say journal.entries commands
        → is ≡ is_returned_after rental number (returned_in (entries_in commands journal)))) }
{
    let rows = query(tx, SELECT_RETURN, &[rental.get().to_sql(), number.to_sql()])?;
    Ok(has_row(rows.as_slice()))
}

/// Returns the rental of the rent, unless it was returned.
fn rental_unless(rent: RentRow, is_back: bool) -> Option<HeldRental>
    ensures { result ≡ held_if rent is_back }
{
    if is_back {
        None
    } else {
        Some(HeldRental {
            rental: rent.rental,
            customer: rent.customer,
        })
    }
}

/// Returns the rental of the rent, unless a later entry is an accepted return of that rental.
fn held_by<S: Alter>(
    tx: &mut Transaction<'_, S>,
    rent: RentRow,
) -> Result<Option<HeldRental>, StoreFault>
    ensures { DoesInside S.Store tx.old.conn tx.new.conn result
        (λ it. Finds (λ journal. (commands : List Command) → Say journal.entries commands
        → it ≡ held_if rent (is_returned_after rent.rental rent.number (returned_in (entries_in commands journal))))) }
{
    let is_back = is_returned(tx, rent.rental, rent.number)?;
    Ok(rental_unless(rent, is_back))
}

/// Returns the rental of the copy's last accepted rent, and its customer, unless a later entry returned that rental.
pub fn held_at<S: Alter>(
    tx: &mut Transaction<'_, S>,
    copy: CopyNo,
) -> Result<Option<HeldRental>, StoreFault>
    ensures { DoesInside S.Store tx.old.conn tx.new.conn result (λ it. Finds (IsHeld copy it)) }
{
    let last = last_rent(tx, copy)?;
    match last {
        Some(rent) => held_by(tx, rent),
        None => Ok(None),
    }
}

const SELECT_RENTER: &str =
    "SELECT number, rental, customer FROM rented WHERE rental = ?1 ORDER BY number DESC LIMIT 1";

/// Returns the last accepted rent whose reply names that rental, if there is one.
fn rent_as<S: Alter>(
    tx: &mut Transaction<'_, S>,
    rental: RentalNo,
) -> Result<Option<RentRow>, StoreFault>
    ensures { DoesInside S.Store tx.old.conn tx.new.conn result
        (λ it. Finds (λ journal. (commands : List Command) → Say journal.entries commands
        → it ≡ option_map seen_rent (rent_named rental (rented_in (entries_in commands journal))))) }
{
    query_one(tx, SELECT_RENTER, &[rental.get().to_sql()])
}

/// Returns the customer of a rent, if there is one.
fn customer_of(rent: Option<RentRow>) -> Option<CustomerNo>
    ensures { result ≡ option_map (λ row. row.customer) rent }
{
    match rent {
        Some(row) => Some(row.customer),
        None => None,
    }
}

/// Returns the customer of the last accepted rent whose reply names that rental, if there is one.
pub fn renter_at<S: Alter>(
    tx: &mut Transaction<'_, S>,
    rental: RentalNo,
) -> Result<Option<CustomerNo>, StoreFault>
    ensures { DoesInside S.Store tx.old.conn tx.new.conn result (λ it. Finds (IsRenter rental it)) }
{
    let rent = rent_as(tx, rental)?;
    Ok(customer_of(rent))
}
