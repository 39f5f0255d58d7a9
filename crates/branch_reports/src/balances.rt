//! Finds the customer's rentals and payments, by which a balance is reckoned.

ghost use Rattle.std.specs.Prelude.{◌≡◌};
ghost use Rattle.sql_rows.specs.Calls.{DoesWithin};
ghost use Rattle.sql_rows.specs.Causes.{FailsByFaults};
ghost use Rattle.shop_model.specs.Books.{shop_of};
ghost use Rattle.shop_types.specs.Seen.{seen_payment};
ghost use Rattle.shop_ledger.specs.Calls.{Finds};
ghost use Rattle.shop_schema.specs.Asked.{HoldsBooks};
ghost use Rattle.shop_store.specs.Seen.{seen_termed};
ghost use Rattle.balance_rule.specs.Balance.{AreTermsOf, ArePaidBy, paid_of, terms_of};

use balance_rule::{Paid, RentalTerms};
use shop_store::payments::payments_of_customer;
use shop_store::termed::{TermedRental, termed_of_customer};
use shop_types::{BranchNo, CustomerNo, Payment};
use sql_rows::StoreFault;
use sqlite::{Alter, Transaction};
use std::alloc::Global;

/// Finds the customer's rentals, in order of number, each with its terms.
pub fn find_terms<S: Alter>(
    alloc: Global,
    tx: &mut Transaction<'_, S>,
    branch: BranchNo,
    customer: CustomerNo,
) -> Result<Vec<RentalTerms>, StoreFault>
    ensures does { DoesWithin S.Store tx.old.conn tx.new.conn result
        (λ terms. Finds (λ books. AreTermsOf (shop_of branch books) customer terms.items)) }
    ensures fails { FailsByFaults S.Store tx.old.conn tx.new.conn result HoldsBooks }
{
    let rows = match termed_of_customer(alloc, tx, branch, customer) {
        Ok(rows) => rows,
        Err(fault) => return Err(fault),
    };
    let mut terms = Vec::new(alloc);
    for row in &rows {
        terms.push(charged_by(*row))?;
    }
    Ok(terms)
}

/// Returns what a balance reads of the rental.
fn charged_by(row: TermedRental) -> RentalTerms
    ensures { result ≡ terms_of (seen_termed row) }
{
    RentalTerms {
        rented: row.rental.rented,
        returned: row.rental.returned,
        rate: row.terms.rate,
        period: row.terms.period,
        replacement: row.terms.replacement,
    }
}

/// Finds the customer's payments, in order of number.
pub fn find_paid<S: Alter>(
    alloc: Global,
    tx: &mut Transaction<'_, S>,
    branch: BranchNo,
    customer: CustomerNo,
) -> Result<Vec<Paid>, StoreFault>
    ensures does { DoesWithin S.Store tx.old.conn tx.new.conn result
        (λ paid. Finds (λ books. ArePaidBy (shop_of branch books) customer paid.items)) }
    ensures fails { FailsByFaults S.Store tx.old.conn tx.new.conn result HoldsBooks }
{
    let rows = match payments_of_customer(alloc, tx, branch, customer) {
        Ok(rows) => rows,
        Err(fault) => return Err(fault),
    };
    let mut payments = Vec::new(alloc);
    for row in &rows {
        payments.push(paid_by(row.payment))?;
    }
    Ok(payments)
}

/// Returns what a balance reads of the payment.
pub fn paid_by(payment: Payment) -> Paid
    ensures { result ≡ paid_of (seen_payment payment) }
{
    Paid {
        amount: payment.amount,
        at: payment.paid,
    }
}
