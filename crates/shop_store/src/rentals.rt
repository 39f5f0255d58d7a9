ghost use Rattle.std.specs.Prelude.{⊤, ◌≡◌, ◌==◌, ◌&&◌, [], ◌∷◌, ◌++◌, Some, option_map, option_to_list};
ghost use Rattle.sqlite.specs.Values.{bound};
ghost use Rattle.sql_rows.specs.Calls.{DoesInside};
ghost use Rattle.sql_rows.specs.Causes.{FailsByFaults};
ghost use Rattle.std.specs.List.{list_any};
ghost use Rattle.shop_model.specs.Calendar.{moment_text, same_moment};
ghost use Rattle.shop_model.specs.Rows.{at, of, set_row};
ghost use Rattle.shop_types.specs.Seen.{seen_rental};
ghost use Rattle.shop_ledger.specs.Calls.{Finds, Stores};
ghost use Rattle.shop_schema.specs.Asked.{HoldsBooks};
ghost use Rattle.shop_schema.specs.RowValues.{IsRow, IsRental, rental_columns};
ghost use Rattle.shop_schema.specs.Held.{IsHeld};
ghost use Rattle.shop_store.specs.Asked.{IsNoneOf};
ghost use Rattle.shop_store.specs.Seen.{seen_rental_row, opened_row};

use crate::rows::shows_row;
use shop_schema::tables::RentalCells;
use shop_schema::{MomentText, read_cells};
use shop_types::{BranchNo, CopyNo, CustomerNo, Moment, Rental, RentalNo};
use sql_rows::{StoreFault, Stored, execute, query_one};
use sqlite::types::{ToSql, ValueRef};
use sqlite::{Alter, Row, Transaction};

/// A rental of a branch, with its number there.
#[derive(Clone, Copy, Drop)]
pub struct RentalRow {
    pub branch: BranchNo,
    pub number: RentalNo,
    pub rental: Rental,
}

impl Stored for RentalRow {
    ghost columns = { λ row. rental_columns (seen_rental_row row) };

    ghost fits = { λ row. IsRow IsRental (seen_rental_row row) };

    ghost refuses = { IsNoneOf (IsRow IsRental) rental_columns };

    fn read(row: &Row) -> Result<RentalRow, StoreFault> {
        let cells = match read_cells::<RentalCells>(row) {
            Ok(cells) => cells,
            Err(fault) => return Err(fault),
        };
        let (branch, (number, (rented, (copy, (customer, (returned, (staff, ()))))))) = cells;
        Ok(RentalRow {
            branch,
            number,
            rental: Rental {
                rented,
                copy,
                customer,
                returned,
                staff,
            },
        })
    }
}

/// Returns the columns of the rental in order, as parameters, with no moment of return.
fn values<'a>(row: &RentalRow, rented: &'a MomentText) -> [ValueRef<'a>; 7]
    requires { rented.now ≡ moment_text row.now.rental.rented }
    ensures { bound result ≡ rental_columns (opened_row row.now) }
{
    [
        row.branch.get().to_sql(),
        row.number.get().to_sql(),
        rented.as_str().to_sql(),
        row.rental.copy.get().to_sql(),
        row.rental.customer.get().to_sql(),
        ValueRef::Null,
        row.rental.staff.get().to_sql(),
    ]
}

const SELECT_RENTAL: &str =
    "SELECT branch, number, moment, copy, customer, returned, staff FROM rental WHERE branch = ?1 AND number = ?2";

/// Returns the branch's rental of the number, or none if there is no such rental.
pub fn rental_at<S: Alter>(
    tx: &mut Transaction<'_, S>,
    branch: BranchNo,
    number: RentalNo,
) -> Result<Option<RentalRow>, StoreFault>
    ensures does { DoesInside S.Store tx.old.conn tx.new.conn result
        (λ row. Finds (λ books. option_to_list (option_map (λ it. seen_rental it.rental) row)
        ≡ at number (of branch books.rentals))) }
    ensures fails { FailsByFaults S.Store tx.old.conn tx.new.conn result HoldsBooks }
{
    query_one(
        tx,
        SELECT_RENTAL,
        &[branch.get().to_sql(), number.get().to_sql()],
    )
}

const SELECT_SAME_RENTAL: &str =
    "SELECT number FROM rental WHERE branch = ?1 AND moment = ?2 AND copy = ?3 AND customer = ?4";

/// Returns whether the branch has a rental of the moment, copy and customer. No two rentals share all three, and one
/// row is read.
pub fn has_rental<S: Alter>(
    tx: &mut Transaction<'_, S>,
    branch: BranchNo,
    rented: Moment,
    copy: CopyNo,
    customer: CustomerNo,
) -> Result<bool, StoreFault>
    ensures { DoesInside S.Store tx.old.conn tx.new.conn result
        (λ has. Finds (λ books. has
        ≡ list_any (λ it. same_moment it.rented rented && it.copy == copy && it.customer == customer)
        (of branch books.rentals))) }
{
    let _real = rented.text();
    let text = MomentText::of(rented);
    shows_row(
        tx,
        SELECT_SAME_RENTAL,
        &[
            branch.get().to_sql(),
            text.as_str().to_sql(),
            copy.get().to_sql(),
            customer.get().to_sql(),
        ],
    )
}

const INSERT_RENTAL: &str =
    "INSERT INTO rental (branch, number, moment, copy, customer, returned, staff) VALUES (?1, ?2, ?3, ?4, ?5, ?6, ?7)";

/// Adds the rental as an open one: a moment of return isn't looked at. After a fault the transaction may be rolled
/// back.
pub fn put_rental<S: Alter>(tx: &mut Transaction<'_, S>, row: &RentalRow) -> Result<(), StoreFault>
    ensures { DoesInside S.Store tx.old.conn tx.new.conn result
        (λ _. Stores (λ _. ⊤) (λ books. record books { rentals = books.rentals ++ opened_row row.now ∷ [] })) }
{
    let rented = MomentText::of(row.rental.rented);
    execute(tx, INSERT_RENTAL, &values(row, &rented))
}

const UPDATE_RETURNED: &str = "UPDATE rental SET returned = ?3 WHERE branch = ?1 AND number = ?2";

/// Sets when the rental's copy came back. A rental that isn't there is not made. After a fault the transaction may be
/// rolled back.
pub fn set_returned<S: Alter>(
    tx: &mut Transaction<'_, S>,
    branch: BranchNo,
    number: RentalNo,
    moment: Moment,
) -> Result<(), StoreFault>
    ensures { DoesInside S.Store tx.old.conn tx.new.conn result
        (λ _. Stores IsHeld (λ books. record books
        { rentals = set_row branch number (λ it. record it { returned = Some moment }) books.rentals })) }
{
    let returned = MomentText::of(moment);
    execute(
        tx,
        UPDATE_RETURNED,
        &[
            branch.get().to_sql(),
            number.get().to_sql(),
            returned.as_str().to_sql(),
        ],
    )
}
