//! Which customers the manual's `rewards_report` names.

ghost use Rattle.std.specs.Prelude.{◌≡◌, ℕ, ◌≤◌, length, filter, sum_by, option_map};
ghost use Rattle.shop_model.specs.Calendar.{month_days, month_before};
ghost use Rattle.shop_model.specs.Shop.{Shop};
ghost use Rattle.balance_rule.specs.Balance.{amount_of, ArePaidBy};
ghost use Rattle.balance_rule.specs.Rewards.{seen_days, is_on, passes, is_rewarded};

use crate::rows::Paid;
use jiff::civil::Date;
use shop_types::Moment;

/// Returns the numbers of the first and the last day of a month.
fn month_days(year: u16, month: u8) -> (i32, i32)
    requires year_low { 1970 ≤ year }
    requires year_high { year ≤ 9999 }
    requires month_low { 1 ≤ month }
    requires month_high { month ≤ 12 }
    ensures { result ≡ seen_days (month_days year month) }
{
    let first = Date::new(year as i16, month as i8, 1).unwrap();
    let last = first.last_of_month();
    (
        first.to_plain().to_unix_epoch_day(),
        last.to_plain().to_unix_epoch_day(),
    )
}

/// Returns the numbers of the first and the last day of the month before the moment's, where 1970-01-01 is 0. Returns
/// none in January 1970, before which there are no days. The manual uses the month before today. Our own rule uses the
/// month before the moment's.
pub fn last_month(at: Moment) -> Option<(i32, i32)>
    ensures { result ≡ option_map seen_days (month_before at) }
{
    let (year, month) = (at.year(), at.month());
    if month > 1 {
        Some(month_days(year, month - 1))
    } else if year > 1970 {
        Some(month_days(year - 1, 12))
    } else {
        None
    }
}

/// Returns whether a payment is of a day from the first to the last.
pub fn is_on(payment: &Paid, month: (i32, i32)) -> bool
    ensures { result ≡ is_on month payment.now }
{
    let day = payment.at.day();
    month.0 <= day && day <= month.1
}

/// Returns how many payments are of a day of the month.
fn count_on(payments: &[Paid], month: (i32, i32)) -> u32
    requires { length payments.now ≤ 1_000_000 }
    ensures { result ≡ length (filter (is_on month) payments.now) }
{
    let mut count = 0u32;
    for payment in payments {
        if is_on(payment, month) {
            count += 1;
        }
    }
    count
}

/// Returns the cents of the payments on days of the month.
fn cents_on(payments: &[Paid], month: (i32, i32)) -> u64
    requires { length payments.now ≤ 1_000_000 }
    ensures { result ≡ sum_by amount_of (filter (is_on month) payments.now) }
{
    let mut total = 0u64;
    for payment in payments {
        if is_on(payment, month) {
            total += u64::from(payment.amount.get());
        }
    }
    total
}

/// Returns whether the payments on the days of a month are more than `purchases`, and more than `cents` cents in all.
/// The month's first and last day belong to it. That both have to be passed, and not reached, is our own.
pub fn rewarded(payments: &[Paid], month: (i32, i32), purchases: u32, cents: u32) -> bool
    requires { length payments.now ≤ 1_000_000 }
    ensures sum { result ≡ passes month purchases cents payments.now }
    ensures customer { (shop : Shop) (customer : ℕ) (days : ℕ × ℕ) → month ≡ seen_days days
        → ArePaidBy shop customer payments.now → result ≡ is_rewarded days shop purchases cents customer }
{
    count_on(payments, month) > purchases && cents_on(payments, month) > u64::from(cents)
}
