//! What the replies to accepted commands say, as lines.

ghost use Rattle.std.specs.Prelude.{◌≡◌, Some, None, IfOk, IfErr, option_map, string_bytes};
ghost use Rattle.serde_json.specs.View.{view};
ghost use Rattle.till_shows.specs.Looks.{may_rent_text, may_rent_in, consignment_text, consignment_in, arrived_text, numbered_in};
ghost use Rattle.till_shows.specs.Looks.{copies_in, reply_of, reply_in};
ghost use Rattle.till_shows.specs.declared.bodies.NotShown.TheVariants.{OtherForm};

use crate::bodies::{NotShown, flag_at, number_at, numbers_in, value_of};
use crate::looks::{counted_or, not};
use serde_json::Value;
use std::alloc::{AllocError, Global};

/// Returns the line for a reply that says one number.
fn numbered(alloc: Global, value: &Value) -> Result<String, NotShown>
    ensures shown { IfOk result (λ line. numbered_in (view value.now) ≡ Some (string_bytes line)) }
    ensures other { IfErr result (λ fault. fault ≡ OtherForm → numbered_in (view value.now) ≡ None) }
{
    if let Some(rental) = number_at(value, "rental") {
        return Ok(format!(in alloc; "rental {rental}")?);
    }
    if let Some(rental) = number_at(value, "returned") {
        return Ok(format!(in alloc; "rental {rental} returned")?);
    }
    if let Some(payment) = number_at(value, "payment") {
        return Ok(format!(in alloc; "payment {payment}")?);
    }
    if let Some(copy) = number_at(value, "scrapped") {
        return Ok(format!(in alloc; "copy {copy} scrapped")?);
    }
    match number_at(value, "customer") {
        Some(customer) => Ok(format!(in alloc; "customer {customer}")?),
        None => Err(NotShown::OtherForm),
    }
}

/// Returns the line for so many copies that came in, by the number of the first.
fn arrived(alloc: Global, count: u64, first: u64) -> Result<String, AllocError>
    ensures { IfOk result (λ line. string_bytes line ≡ arrived_text count first) }
{
    if count == 1 {
        format!(in alloc; "1 copy, number {first}")
    } else {
        format!(in alloc; "{count} copies, the first of them {first}")
    }
}

/// Returns the line for a reply that says which copies came in.
fn copies(alloc: Global, value: &Value, copies: &Value) -> Result<String, NotShown>
    ensures shown { IfOk result (λ line. copies_in (view value.now) (view copies.now) ≡ Some (string_bytes line)) }
    ensures other { IfErr result (λ fault. fault ≡ OtherForm → copies_in (view value.now) (view copies.now) ≡ None) }
{
    if copies.is_array() {
        let numbers = numbers_in(alloc, copies)?;
        return Ok(counted_or(alloc, "no copies", "copies ", numbers.as_slice())?);
    }
    let Some(count) = copies.as_u64() else {
        return Err(NotShown::OtherForm);
    };
    match number_at(value, "first") {
        Some(first) => Ok(arrived(alloc, count, first)?),
        None => Err(NotShown::OtherForm),
    }
}

/// Returns whether the customer may rent, and the customer's number.
fn may_rent(value: &Value) -> Option<(bool, u64)>
    ensures { option_map (λ it. may_rent_text it.0 it.1) result ≡ may_rent_in (view value.now) }
{
    match flag_at(value, "active") {
        Some(active) => match number_at(value, "customer") {
            Some(customer) => Some((active, customer)),
            None => None,
        },
        None => None,
    }
}

/// Returns a consignment's number, and the branch that it goes to.
fn consignment(value: &Value) -> Option<(u64, u64)>
    ensures { option_map (λ it. consignment_text it.0 it.1) result ≡ consignment_in (view value.now) }
{
    match number_at(value, "consignment") {
        Some(number) => match number_at(value, "to") {
            Some(to) => Some((number, to)),
            None => None,
        },
        None => None,
    }
}

fn line_of(alloc: Global, value: &Value) -> Result<String, NotShown>
    ensures shown { IfOk result (λ line. reply_of (view value.now) ≡ Some (string_bytes line)) }
    ensures other { IfErr result (λ fault. fault ≡ OtherForm → reply_of (view value.now) ≡ None) }
{
    if let Some((active, customer)) = may_rent(value) {
        let not = not(active);
        return Ok(format!(in alloc; "customer {customer} may {not}rent")?);
    }
    if let Some((number, to)) = consignment(value) {
        return Ok(format!(in alloc; "consignment {number} to branch {to}")?);
    }
    match value.get("copies") {
        Some(them) => copies(alloc, value, them),
        None => numbered(alloc, value),
    }
}

/// Returns the line for the body of the reply to an accepted command: `customer 17`, `customer 17 may rent`,
/// `customer 17 may not rent`, `rental 12`, `rental 12 returned`, `payment 9`, `copy 4 scrapped`,
/// `consignment 1 to branch 2`, `copies 3, 4`, `no copies`, `4 copies, the first of them 1`, `1 copy, number 5`.
pub fn reply_line(alloc: Global, body: &[u8]) -> Result<String, NotShown>
    ensures shown { IfOk result (λ line. reply_in body.now ≡ Some (string_bytes line)) }
    ensures other { IfErr result (λ fault. fault ≡ OtherForm → reply_in body.now ≡ None) }
{
    let value = value_of(alloc, body)?;
    line_of(alloc, &value)
}
