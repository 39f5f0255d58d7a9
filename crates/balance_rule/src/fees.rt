//! What a customer owes, by the manual's `get_customer_balance`.

ghost use Rattle.std.specs.Prelude.{◌≡◌, ℕ, ◌+◌, ◌≤◌, length, nat_lt};
ghost use Rattle.shop_model.specs.Calendar.{day_of, is_by};
ghost use Rattle.shop_model.specs.Stock.{late_days, balance};
ghost use Rattle.shop_model.specs.Shop.{Shop};
ghost use Rattle.shop_types.specs.Seen.{seen_rule};
ghost use Rattle.balance_rule.specs.Balance.{days_past_of, code_fee_of, comment_fee_of, fee_of, fees_by, paid_by, owed_at, AreTermsOf, ArePaidBy};

use crate::rows::{Paid, RentalTerms};
use shop_types::{Cents, Moment, Period, Rule};

/// Returns whether the first moment is not after the second.
fn is_by(moment: Moment, at: Moment) -> bool
    ensures { result ≡ is_by moment at }
{
    moment.seconds() <= at.seconds()
}

/// Returns the days by which a rental was returned after its period of days, by the numbers of the days and not by
/// hours. Returns none for an open rental.
pub fn late_days(rented: Moment, returned: Option<Moment>, period: Period) -> u32
    ensures value { result ≡ late_days rented returned period }
    ensures bound { result ≤ 2_932_896 }
{
    match returned {
        None => 0,
        Some(returned) => {
            let kept = (returned.day() as u32).saturating_sub(rented.day() as u32);
            kept.saturating_sub(period.get())
        }
    }
}

/// Returns whether the period of a rental ended on a day before that of the moment: overdue, where the rental is open.
pub fn is_overdue(rented: Moment, period: Period, at: Moment) -> bool
    ensures { result ≡ nat_lt (day_of rented + period) (day_of at) }
{
    rented.day() as u32 + period.get() < at.day() as u32
}

/// Returns the days by which a rental is past its period at a moment, which is its end if it wasn't returned by then.
fn days_past(rental: &RentalTerms, at: Moment) -> u32
    ensures value { result ≡ days_past_of at rental.now }
    ensures bound { result ≤ 2_932_896 }
{
    let end = match rental.returned {
        Some(returned) if is_by(returned, at) => returned,
        _ => at,
    };
    late_days(rental.rented, Some(end), rental.period)
}

/// Returns what a rental costs by the manual's code, in cents: its rate, and a dollar for each late day.
fn code_fee(rental: &RentalTerms) -> u32
    ensures value { result ≡ code_fee_of rental.now }
    ensures bound { result ≤ 293_299_599 }
{
    rental.rate.get() + 100 * late_days(rental.rented, rental.returned, rental.period)
}

/// Returns what a rental costs by the comment: its rate, a dollar for each day past its period, and its replacement
/// cost once if the days past are more than twice its period.
fn comment_fee(rental: &RentalTerms, at: Moment) -> u32
    ensures value { result ≡ comment_fee_of at rental.now }
    ensures bound { result ≤ 293_399_598 }
{
    let past = days_past(rental, at);
    let period = rental.period;
    let charge = rental.rate.get() + 100 * past;
    if past > 2 * period.get() {
        charge + rental.replacement.get()
    } else {
        charge
    }
}

/// Returns what a rental costs by the rule, as it is seen at a moment.
fn fee(rental: &RentalTerms, at: Moment, rule: Rule) -> u32
    ensures value { result ≡ fee_of (seen_rule rule) at rental.now }
    ensures bound { result ≤ 293_399_598 }
{
    match rule {
        Rule::ByCode => code_fee(rental),
        Rule::ByComment => comment_fee(rental, at),
    }
}

/// Returns the cents that the rentals up to a moment cost.
fn fees(rentals: &[RentalTerms], at: Moment, rule: Rule) -> u64
    requires { length rentals.now ≤ 1_000_000 }
    ensures value { result ≡ fees_by (seen_rule rule) at rentals.now }
    ensures bound { result ≤ 293_399_598_000_000 }
{
    let mut total = 0u64;
    for rental in rentals {
        if is_by(rental.rented, at) {
            total += u64::from(fee(rental, at, rule));
        }
    }
    total
}

/// Returns the cents of the payments up to a moment.
fn paid(payments: &[Paid], at: Moment) -> u64
    requires { length payments.now ≤ 1_000_000 }
    ensures value { result ≡ paid_by at payments.now }
    ensures bound { result ≤ 99_999_000_000 }
{
    let mut total = 0u64;
    for payment in payments {
        if is_by(payment.at, at) {
            total += u64::from(payment.amount.get());
        }
    }
    total
}

/// Returns the manual's `get_customer_balance` by either rule: what the rentals up to a moment cost, less the payments
/// up to it. It is below zero if more was paid.
pub fn balance(rentals: &[RentalTerms], payments: &[Paid], at: Moment, rule: Rule) -> Cents
    requires rentals { length rentals.now ≤ 1_000_000 }
    requires payments { length payments.now ≤ 1_000_000 }
    ensures sum { result ≡ owed_at (seen_rule rule) rentals.now payments.now at }
    ensures balance { (shop : Shop) (customer : ℕ) → AreTermsOf shop customer rentals.now
        → ArePaidBy shop customer payments.now → result ≡ balance (seen_rule rule) shop customer at }
{
    let owed = fees(rentals, at, rule) as i64;
    Cents::new(owed - paid(payments, at) as i64)
}
