ghost use Rattle.std.specs.Prelude.{⊤, ◌≡◌, ◌==◌, ◌&&◌, [], ◌∷◌, ◌++◌, filter, map};
ghost use Rattle.sqlite.specs.Values.{bound, or_null};
ghost use Rattle.sqlite_value.specs.Value.{owned};
ghost use Rattle.sql_rows.specs.Calls.{DoesInside};
ghost use Rattle.sql_rows.specs.Causes.{FailsByFaults};
ghost use Rattle.sql_rows.specs.Rows.{number_value};
ghost use Rattle.shop_model.specs.Calendar.{moment_text, is_by, is_earlier};
ghost use Rattle.shop_model.specs.Rows.{of};
ghost use Rattle.shop_types.specs.Seen.{seen_payment};
ghost use Rattle.shop_ledger.specs.Calls.{Finds, Stores};
ghost use Rattle.shop_schema.specs.Asked.{HoldsBooks};
ghost use Rattle.shop_schema.specs.RowValues.{IsRow, IsPayment, payment_columns};
ghost use Rattle.shop_store.specs.Asked.{IsNoneOf};
ghost use Rattle.shop_store.specs.Seen.{seen_payment_row};

use shop_schema::tables::PaymentCells;
use shop_schema::{MomentText, read_cells};
use shop_types::{BranchNo, CustomerNo, Moment, Payment, PaymentNo, RentalNo};
use sql_rows::{StoreFault, Stored, execute, query_all};
use sqlite::types::{ToSql, ValueRef};
use sqlite::{Alter, Row, Transaction};
use std::alloc::Global;

/// A payment at a branch, with its number there.
#[derive(Clone, Copy, Drop)]
pub struct PaymentRow {
    pub branch: BranchNo,
    pub number: PaymentNo,
    pub payment: Payment,
}

impl Stored for PaymentRow {
    ghost columns = { λ row. payment_columns (seen_payment_row row) };

    ghost fits = { λ row. IsRow IsPayment (seen_payment_row row) };

    ghost refuses = { IsNoneOf (IsRow IsPayment) payment_columns };

    fn read(row: &Row) -> Result<PaymentRow, StoreFault> {
        let cells = match read_cells::<PaymentCells>(row) {
            Ok(cells) => cells,
            Err(fault) => return Err(fault),
        };
        let (branch, (number, (customer, (staff, (rental, (amount, (paid, ()))))))) = cells;
        Ok(PaymentRow {
            branch,
            number,
            payment: Payment {
                customer,
                staff,
                rental,
                amount,
                paid,
            },
        })
    }
}

/// Returns the rental's number, or NULL if there is none.
fn rental_or_null(rental: Option<RentalNo>) -> ValueRef<'static>
    ensures { owned result ≡ or_null number_value rental }
{
    match rental {
        Some(number) => number.get().to_sql(),
        None => ValueRef::Null,
    }
}

/// Returns the columns of the payment in order, as parameters.
fn values<'a>(row: &PaymentRow, paid: &'a MomentText) -> [ValueRef<'a>; 7]
    requires { paid.now ≡ moment_text row.now.payment.paid }
    ensures { bound result ≡ payment_columns (seen_payment_row row.now) }
{
    [
        row.branch.get().to_sql(),
        row.number.get().to_sql(),
        row.payment.customer.get().to_sql(),
        row.payment.staff.get().to_sql(),
        rental_or_null(row.payment.rental),
        row.payment.amount.get().to_sql(),
        paid.as_str().to_sql(),
    ]
}

const SELECT_PAYMENTS_OF_CUSTOMER: &str =
    "SELECT branch, number, customer, staff, rental, amount, moment FROM payment WHERE branch = ?1 AND customer = ?2 ORDER BY number";

/// Returns all payments of the branch's customer, in order of number. After a fault the transaction may be rolled
/// back.
pub fn payments_of_customer<S: Alter>(
    alloc: Global,
    tx: &mut Transaction<'_, S>,
    branch: BranchNo,
    customer: CustomerNo,
) -> Result<Vec<PaymentRow>, StoreFault>
    ensures does { DoesInside S.Store tx.old.conn tx.new.conn result
        (λ rows. Finds (λ books. map (λ row. seen_payment row.payment) rows.items
        ≡ filter (λ it. it.customer == customer) (of branch books.payments))) }
    ensures fails { FailsByFaults S.Store tx.old.conn tx.new.conn result HoldsBooks }
{
    query_all(
        alloc,
        tx,
        SELECT_PAYMENTS_OF_CUSTOMER,
        &[branch.get().to_sql(), customer.get().to_sql()],
    )
}

const SELECT_PAYMENTS_BETWEEN: &str =
    "SELECT branch, number, customer, staff, rental, amount, moment FROM payment WHERE branch = ?1 AND moment >= ?2 AND moment < ?3 ORDER BY number";

/// Returns the branch's payments from the first moment on and before the second, in order of number. After a fault the
/// transaction may be rolled back.
pub fn payments_between<S: Alter>(
    alloc: Global,
    tx: &mut Transaction<'_, S>,
    branch: BranchNo,
    start: Moment,
    end: Moment,
) -> Result<Vec<PaymentRow>, StoreFault>
    ensures does { DoesInside S.Store tx.old.conn tx.new.conn result
        (λ rows. Finds (λ books. map (λ row. seen_payment row.payment) rows.items
        ≡ filter (λ it. is_by start it.paid && is_earlier it.paid end) (of branch books.payments))) }
    ensures fails { FailsByFaults S.Store tx.old.conn tx.new.conn result HoldsBooks }
{
    let _real = start.text();
    let _also = end.text();
    let first = MomentText::of(start);
    let past = MomentText::of(end);
    query_all(
        alloc,
        tx,
        SELECT_PAYMENTS_BETWEEN,
        &[
            branch.get().to_sql(),
            first.as_str().to_sql(),
            past.as_str().to_sql(),
        ],
    )
}

const INSERT_PAYMENT: &str =
    "INSERT INTO payment (branch, number, customer, staff, rental, amount, moment) VALUES (?1, ?2, ?3, ?4, ?5, ?6, ?7)";

/// Adds the payment. After a fault the transaction may be rolled back.
pub fn put_payment<S: Alter>(
    tx: &mut Transaction<'_, S>,
    row: &PaymentRow,
) -> Result<(), StoreFault>
    ensures { DoesInside S.Store tx.old.conn tx.new.conn result
        (λ _. Stores (λ _. ⊤) (λ books. record books { payments = books.payments ++ seen_payment_row row.now ∷ [] })) }
{
    let paid = MomentText::of(row.payment.paid);
    execute(tx, INSERT_PAYMENT, &values(row, &paid))
}
