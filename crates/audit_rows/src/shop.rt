//! One branch's shop, over its rows in order of number.

ghost use Rattle.std.specs.Prelude.{◌≡◌, ◌&&◌, [], ◌∷◌, true, IfOk, map};
ghost use Rattle.std.specs.List.{list_all, AllByRecursion};
ghost use Rattle.std.specs.Str.{bytes_eq};
ghost use Rattle.shop_model.specs.Calendar.{IsMoment, seconds_of};
ghost use Rattle.shop_model.specs.GoodShop.{is_within, returned_by, rental_by, are_apart};
ghost use Rattle.shop_model.specs.Links.{are_different};
ghost use Rattle.shop_types.specs.Seen.{seen_rental};
ghost use Rattle.audit_rows.specs.Lists.{rises_from};
ghost use Rattle.audit_rows.specs.Shops.{rental_key, open_keys};

use crate::books::CheckedCustomer;
use crate::{CheckedRow, Keyed, are_distinct};
use shop_types::{
    CopyNo, CustomerNo, Moment, NoMemory, Payment, Rental, moment_texts_are_one_to_one,
};
use std::alloc::Global;
use std::cmp::Ordering;

// ---- moments

/// Returns whether the moment isn't after the last one, which is there.
fn is_within(last: Option<Moment>, moment: Moment) -> bool
    ensures { result ≡ is_within last moment }
{
    match last {
        None => false,
        Some(last) => moment.seconds() <= last.seconds(),
    }
}

/// Returns whether a return, if there is one, isn't before the rental or after the last moment.
fn is_returned_by(last: Option<Moment>, rented: Moment, returned: Option<Moment>) -> bool
    ensures { result ≡ returned_by last rented returned }
{
    match returned {
        None => true,
        Some(returned) => { rented.seconds() <= returned.seconds() && is_within(last, returned) }
    }
}

/// Returns whether every customer was added by the last moment.
pub fn are_created_by(last: Option<Moment>, customers: &[CheckedRow<CheckedCustomer>]) -> bool
    ensures { result ≡ list_all (λ row. is_within last row.it.created) customers.now }
{
    customers.iter().all(|row| is_within(last, row.it.created))
}

/// Returns whether every rental is in order, and by the last moment.
pub fn are_rented_by(last: Option<Moment>, rentals: &[CheckedRow<Rental>]) -> bool
    ensures { result ≡ list_all (λ row. rental_by last (seen_rental row.it)) rentals.now }
{
    rentals.iter().all(|row| {
        is_within(last, row.it.rented) && is_returned_by(last, row.it.rented, row.it.returned)
    })
}

/// Returns whether every payment was made by the last moment.
pub fn are_paid_by(last: Option<Moment>, payments: &[CheckedRow<Payment>]) -> bool
    ensures { result ≡ list_all (λ row. is_within last row.it.paid) payments.now }
{
    payments.iter().all(|row| is_within(last, row.it.paid))
}

/// Returns whether no rental begins before the one before it.
pub fn rentals_rise(rentals: &[CheckedRow<Rental>]) -> bool
    ensures { result ≡ rises_from 0 (map (λ row. seconds_of row.it.rented) rentals.now) }
{
    let mut last = 0;
    for row in rentals {
        let seconds = row.it.rented.seconds();
        if seconds < last {
            return false;
        }
        last = seconds;
    }
    true
}

/// Returns whether no payment is made before the one before it.
pub fn payments_rise(payments: &[CheckedRow<Payment>]) -> bool
    ensures { result ≡ rises_from 0 (map (λ row. seconds_of row.it.paid) payments.now) }
{
    let mut last = 0;
    for row in payments {
        let seconds = row.it.paid.seconds();
        if seconds < last {
            return false;
        }
        last = seconds;
    }
    true
}

// ---- doubles

/// Moment, copy and customer of a rental, as a row whose key they are.
#[derive(Drop)]
struct RentalKey {
    rented: [u8; 19],
    copy: CopyNo,
    customer: CustomerNo,
}

impl Keyed for RentalKey {
    ghost key = { λ row. row.copy ∷ row.customer ∷ row.rented };

    fn compare(&self, other: &RentalKey) -> Ordering {
        let first = self.copy.get().cmp(&other.copy.get());
        let second = self.customer.get().cmp(&other.customer.get());
        first
            .then(second)
            .then(self.rented.as_slice().cmp(other.rented.as_slice()))
    }
}

#[tactic(auto, unfolding(crate::specs::Shops::rental_key))]
fn key_of(rental: &Rental) -> RentalKey
    ensures key { result.copy ∷ result.customer ∷ result.rented ≡ rental_key (seen_rental rental.now) }
    ensures moment { IsMoment rental.now.rented }
{
    RentalKey {
        rented: rental.rented.text(),
        copy: rental.copy,
        customer: rental.customer,
    }
}

fn rental_keys(alloc: Global, rentals: &[CheckedRow<Rental>]) -> Result<Vec<RentalKey>, NoMemory>
    ensures keys { IfOk result (λ v. map (λ row. row.copy ∷ row.customer ∷ row.rented) v.items
        ≡ map (λ row. rental_key (seen_rental row.it)) rentals.now) }
    ensures moments { IfOk result (λ _. AllByRecursion (λ row. IsMoment row.it.rented) rentals.now) }
{
    let mut keys = Vec::new(alloc);
    for row in rentals {
        if keys.push(key_of(&row.it)).is_err() {
            return Err(NoMemory);
        }
    }
    Ok(keys)
}

/// Returns whether no two rentals share moment, copy and customer.
pub fn rentals_are_apart(alloc: Global, rentals: &[CheckedRow<Rental>]) -> Result<bool, NoMemory>
    ensures { IfOk result (λ is. is ≡ are_apart (map (λ row. seen_rental row.it) rentals.now)) }
{
    moment_texts_are_one_to_one();
    let mut keys = rental_keys(alloc, rentals)?;
    Ok(are_distinct(&mut keys))
}

/// The copy of an open rental, as a row whose key it is.
#[derive(Drop)]
struct OpenKey {
    copy: CopyNo,
}

impl Keyed for OpenKey {
    ghost key = { λ row. row.copy ∷ [] };

    fn compare(&self, other: &OpenKey) -> Ordering {
        self.copy.get().cmp(&other.copy.get())
    }
}

fn open_copies(alloc: Global, rentals: &[CheckedRow<Rental>]) -> Result<Vec<OpenKey>, NoMemory>
    ensures { IfOk result (λ v. map (λ row. row.copy ∷ []) v.items
        ≡ open_keys (map (λ row. seen_rental row.it) rentals.now)) }
{
    let mut keys = Vec::new(alloc);
    for row in rentals {
        if row.it.returned.is_none() {
            if keys.push(OpenKey { copy: row.it.copy }).is_err() {
                return Err(NoMemory);
            }
        }
    }
    Ok(keys)
}

/// Returns whether no copy has two open rentals.
pub fn are_held_once(alloc: Global, rentals: &[CheckedRow<Rental>]) -> Result<bool, NoMemory>
    ensures { IfOk result (λ is. is
        ≡ are_different bytes_eq (open_keys (map (λ row. seen_rental row.it) rentals.now))) }
{
    let mut keys = open_copies(alloc, rentals)?;
    Ok(are_distinct(&mut keys))
}
