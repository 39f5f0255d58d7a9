//! Rentals, each with its terms.

ghost use Rattle.std.specs.Prelude.{◌≡◌, ◌==◌, filter, map};
ghost use Rattle.sql_rows.specs.Calls.{DoesInside};
ghost use Rattle.sql_rows.specs.Causes.{FailsByFaults};
ghost use Rattle.shop_model.specs.Books.{shop_of};
ghost use Rattle.shop_model.specs.Stock.{termed};
ghost use Rattle.shop_ledger.specs.Calls.{Finds};
ghost use Rattle.shop_schema.specs.Asked.{HoldsBooks};
ghost use Rattle.shop_store.specs.Asked.{IsNoneOf};
ghost use Rattle.shop_store.specs.Seen.{seen_termed, termed_columns, IsTermed};

use shop_schema::read_cells;
use shop_types::{
    Amount, BranchNo, CopyNo, CustomerNo, Moment, Period, Rate, Rental, StaffNo, Terms,
};
use sql_rows::{StoreFault, Stored, query_all};
use sqlite::types::ToSql;
use sqlite::{Alter, Row, Transaction};
use std::alloc::Global;

/// The columns of a rental and of its terms, as the join shows them.
type TermedCells = (
    Moment,
    (
        CopyNo,
        (
            CustomerNo,
            (Option<Moment>, (StaffNo, (Rate, (Period, (Amount, ()))))),
        ),
    ),
);

/// A rental with its terms.
#[derive(Clone, Copy, Drop)]
pub struct TermedRental {
    pub rental: Rental,
    pub terms: Terms,
}

impl Stored for TermedRental {
    ghost columns = { λ it. termed_columns (seen_termed it) };

    ghost fits = { λ it. IsTermed (seen_termed it) };

    ghost refuses = { IsNoneOf IsTermed termed_columns };

    fn read(row: &Row) -> Result<TermedRental, StoreFault> {
        let cells = match read_cells::<TermedCells>(row) {
            Ok(cells) => cells,
            Err(fault) => return Err(fault),
        };
        let (rented, (copy, (customer, (returned, (staff, terms))))) = cells;
        let (rate, (period, (replacement, ()))) = terms;
        Ok(TermedRental {
            rental: Rental {
                rented,
                copy,
                customer,
                returned,
                staff,
            },
            terms: Terms {
                rate,
                period,
                replacement,
            },
        })
    }
}

const SELECT_TERMED: &str =
    "SELECT r.moment, r.copy, r.customer, r.returned, r.staff, t.rate, t.period, t.replacement FROM rental AS r LEFT JOIN rental_terms AS t ON t.branch = r.branch AND t.rental = r.number WHERE r.branch = ?1 AND r.customer = ?2 ORDER BY r.number";

/// Returns the rentals of the branch's customer, in order of number, each with its terms. A rental without terms is
/// the fault `Failed`; no sound table has one. After a fault the transaction may be rolled back.
pub fn termed_of_customer<S: Alter>(
    alloc: Global,
    tx: &mut Transaction<'_, S>,
    branch: BranchNo,
    customer: CustomerNo,
) -> Result<Vec<TermedRental>, StoreFault>
    ensures does { DoesInside S.Store tx.old.conn tx.new.conn result
        (λ rows. Finds (λ books. map (λ row. seen_termed row) rows.items
        ≡ filter (λ it. it.0.customer == customer) (termed (shop_of branch books)))) }
    ensures fails { FailsByFaults S.Store tx.old.conn tx.new.conn result HoldsBooks }
{
    query_all(
        alloc,
        tx,
        SELECT_TERMED,
        &[branch.get().to_sql(), customer.get().to_sql()],
    )
}
