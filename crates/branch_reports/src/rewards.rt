//! Finds which of a branch's customers are rewarded.

ghost use Rattle.std.specs.Prelude.{◌≡◌, ℕ, ℤ, ◌+◌, ◌*◌, ◌≤◌, List, Some, length, IfOk, OnOk};
ghost use Rattle.std.specs.BTreeMap.{Updates, get};
ghost use Rattle.std.specs.Ordering.{nat_cmp};
ghost use Rattle.sql_rows.specs.Calls.{DoesWithin};
ghost use Rattle.sql_rows.specs.Causes.{FailsByFaults};
ghost use Rattle.shop_model.specs.Calendar.{month_before, seconds_of};
ghost use Rattle.shop_model.specs.Books.{shop_of};
ghost use Rattle.shop_model.specs.Stock.{rewarded_in};
ghost use Rattle.shop_ledger.specs.Asked.{HoldsBranch};
ghost use Rattle.shop_ledger.specs.Calls.{Finds};
ghost use Rattle.shop_model.specs.Values.{Payment};
ghost use Rattle.branch_reports.specs.Rewards.{AreSmall, AreSummed, one_paid, passes_for, payments_of, rewarded_numbers, sum_or_none};

use crate::balances::paid_by;
use balance_rule::{is_on, last_month};
use shop_ledger::{Count, CountKind, count_of};
use shop_store::payments::{PaymentRow, payments_between};
use shop_types::{Amount, BranchNo, CustomerNo, Moment};
use sql_rows::StoreFault;
use sqlite::{Alter, Transaction};
use std::alloc::Global;
use std::collections::BTreeMap;

/// What a customer paid in a month: how often, and how many cents.
#[derive(Clone, Copy)]
pub struct PaidSum {
    pub purchases: u32,
    pub cents: u64,
}

/// Finds the customers, by number, whose payments in the month before the moment's are more in number and in cents than
/// the thresholds. Finds nobody in January 1970, before which there is no month.
pub fn find_rewarded<S: Alter>(
    alloc: Global,
    tx: &mut Transaction<'_, S>,
    branch: BranchNo,
    at: Moment,
    purchases: u32,
    cents: u32,
) -> Result<Vec<CustomerNo>, StoreFault>
    ensures does { DoesWithin S.Store tx.old.conn tx.new.conn result
        (λ customers. Finds (λ books. customers.items
        ≡ rewarded_in (month_before at) (shop_of branch books) purchases cents)) }
    ensures fails { FailsByFaults S.Store tx.old.conn tx.new.conn result (HoldsBranch branch) }
{
    let Some(month) = last_month(at) else {
        return Ok(Vec::new(alloc));
    };
    let (start, end) = last_month_bounds(at);
    let customers = match count_of(tx, Count::Of(branch, CountKind::Customers)) {
        Ok(customers) => customers,
        Err(fault) => return Err(fault),
    };
    let rows = match payments_between(alloc, tx, branch, start, end) {
        Ok(rows) => rows,
        Err(fault) => return Err(fault),
    };
    if 1_000_000 < rows.len() {
        return Err(StoreFault::Failed);
    }
    // No call below reads the store, so each fails only where memory runs out.
    match rewarded_among(alloc, customers, rows.as_slice(), month, purchases, cents) {
        Ok(numbers) => Ok(numbers),
        Err(_) => Err(StoreFault::Memory),
    }
}

/// Returns the first second of the month before the moment's, and the first second of the moment's own month. In
/// January 1970 both are the first second of that month.
fn last_month_bounds(at: Moment) -> (Moment, Moment)
    ensures { (days : ℕ × ℕ) → month_before at ≡ Some days
        → (seconds_of result.0 ≡ days.0 * 86_400) × (seconds_of result.1 ≡ (days.1 + 1) * 86_400) }
{
    let (year, month) = (at.year(), at.month());
    let end = Moment::month_start(year, month);
    if month > 1 {
        (Moment::month_start(year, month - 1), end)
    } else if year > 1970 {
        (Moment::month_start(year - 1, 12), end)
    } else {
        (end, end)
    }
}

/// Returns the numbers of the customers whose payments among the rows pass both thresholds in the month. The customers
/// have the numbers from 1 to `customers`.
fn rewarded_among(
    alloc: Global,
    customers: u32,
    rows: &[PaymentRow],
    month: (i32, i32),
    purchases: u32,
    cents: u32,
) -> Result<Vec<CustomerNo>, StoreFault>
    requires customers { customers ≤ 1_000_000 }
    requires rows { length rows.now ≤ 1_000_000 }
    ensures { IfOk result (λ numbers. numbers.items
        ≡ rewarded_numbers month purchases cents customers (payments_of rows.now)) }
{
    let sums = sums_of(alloc, rows, month)?;
    let mut numbers = Vec::new(alloc);
    for index in 0..customers {
        let customer = CustomerNo::new(index + 1).unwrap();
        if passes_for(&sums, customer, purchases, cents) {
            numbers.push(customer)?;
        }
    }
    Ok(numbers)
}

/// Sums what each customer paid in the month. A customer who paid nothing in the month has no sum.
fn sums_of(
    alloc: Global,
    rows: &[PaymentRow],
    month: (i32, i32),
) -> Result<BTreeMap<u32, PaidSum>, StoreFault>
    requires { length rows.now ≤ 1_000_000 }
    ensures { IfOk result (λ sums. AreSummed month sums (payments_of rows.now)) }
{
    let mut sums = BTreeMap::new(alloc);
    for row in rows {
        if is_on(&paid_by(row.payment), month) {
            add_paid(&mut sums, row.payment.customer, row.payment.amount)?;
        }
    }
    Ok(sums)
}

/// Adds a payment to the customer's sum.
fn add_paid(
    sums: &mut BTreeMap<u32, PaidSum>,
    customer: CustomerNo,
    amount: Amount,
) -> Result<(), StoreFault>
    requires { AreSmall 1_000_000 sums.now }
    ensures { OnOk result (Updates nat_cmp sums.old sums.new customer
        (Some (one_paid amount (get nat_cmp sums.old customer)))) }
{
    let before = sum_at(sums, customer);
    let sum = PaidSum {
        purchases: before.purchases + 1,
        cents: before.cents + u64::from(amount.get()),
    };
    sums.insert(customer.get(), sum)?;
    Ok(())
}

/// Returns what the customer paid.
fn sum_at(sums: &BTreeMap<u32, PaidSum>, customer: CustomerNo) -> PaidSum
    ensures { result ≡ sum_or_none (get nat_cmp sums.now customer) }
{
    match sums.get(&customer.get()).copied() {
        Some(sum) => sum,
        None => PaidSum {
            purchases: 0,
            cents: 0,
        },
    }
}

/// Returns whether what the customer paid passes both thresholds.
fn passes_for(
    sums: &BTreeMap<u32, PaidSum>,
    customer: CustomerNo,
    purchases: u32,
    cents: u32,
) -> bool
    ensures { (month : ℤ × ℤ) (payments : List Payment) → AreSummed month sums.now payments
        → result ≡ passes_for month purchases cents payments customer }
{
    let sum = sum_at(sums, customer);
    sum.purchases > purchases && sum.cents > u64::from(cents)
}
