//! Bodies in JSON, and what their members hold.

ghost use Rattle.std.specs.Prelude.{◌≡◌, ◌≤◌, length, IfOk, IfErr, Some, None, option_map};
ghost use Rattle.serde_json.specs.View.{view};
ghost use Rattle.shop_types.specs.Seen.{seen_person};
ghost use Rattle.counter_routes.specs.Bodies.{string_at, text_at, key_at, moment_at, number_at, row_number_in, list_of_numbers, numbers_at, bool_at, rental_at, amount_at, has_members as is_object_of, names_at, contact_at, person_at, body_of};
ghost use Rattle.counter_routes.specs.Sizes.{size};
ghost use Rattle.counter_routes.specs.declared.bodies.BodyFault.TheVariants.{BadBody, NoMemory as OutOfMemory};

use serde_json::Value;
use shop_types::{Amount, Key, L45, Moment, Numbers, Person, RentalNo, RowNumber, T45, T128, Text};
use std::alloc::{AllocError, Global};

/// Why a body gives no command.
#[derive(Clone, Copy)]
pub(crate) enum BodyFault {
    BadBody,
    NoMemory,
}

impl From<AllocError> for BodyFault {
    ghost from_gives = { λ _ fault. fault ≡ OutOfMemory };

    fn from(_error: AllocError) -> BodyFault {
        BodyFault::NoMemory
    }
}

pub(crate) fn has_members(value: &Value, count: usize) -> bool
    ensures { result ≡ is_object_of count (view value.now) }
{
    match value.as_object() {
        Some(members) => members.len() == count,
        None => false,
    }
}

fn string<'v>(value: &'v Value, name: &str) -> Option<&'v str>
    ensures { option_map (λ text. text.now) result ≡ string_at name.now (view value.now) }
{
    value.get(name)?.as_str()
}

pub(crate) fn key(alloc: Global, value: &Value) -> Result<Key, BodyFault>
    ensures ok { IfOk result (λ key. key_at (view value.now) ≡ Some key) }
    ensures bad { IfErr result (λ fault. fault ≡ BadBody → key_at (view value.now) ≡ None) }
{
    let text = string(value, "key").ok_or(BodyFault::BadBody)?;
    Key::read(String::from_str(alloc, text)?).ok_or(BodyFault::BadBody)
}

pub(crate) fn moment(value: &Value) -> Option<Moment>
    ensures { result ≡ moment_at (view value.now) }
{
    Moment::read(string(value, "at")?)
}

/// Returns the number of a row that the value is.
fn row_number<const KIND: u8>(value: &Value) -> Option<RowNumber<KIND>>
    ensures { result ≡ row_number_in (view value.now) }
{
    match value.as_u64()? {
        number @ 0..=0xffff_ffff => RowNumber::new(number as u32),
        _ => None,
    }
}

/// Reads the number of a row from the member of that name.
pub(crate) fn number<const KIND: u8>(
    value: &Value,
    name: &str,
) -> Result<RowNumber<KIND>, BodyFault>
    ensures ok { IfOk result (λ number. number_at name.now (view value.now) ≡ Some number) }
    ensures bad { IfErr result (λ fault. fault ≡ BadBody → number_at name.now (view value.now) ≡ None) }
{
    let number = value.get(name).ok_or(BodyFault::BadBody)?;
    row_number(number).ok_or(BodyFault::BadBody)
}

/// Reads the numbers of rows that the value lists.
fn listed<const KIND: u8>(alloc: Global, value: &Value) -> Result<Vec<RowNumber<KIND>>, BodyFault>
    ensures ok { IfOk result (λ numbers. list_of_numbers (view value.now) ≡ Some numbers.items) }
    ensures bad { IfErr result (λ fault. fault ≡ BadBody → list_of_numbers (view value.now) ≡ None) }
{
    let items = value.as_array().ok_or(BodyFault::BadBody)?;
    let mut numbers = Vec::with_capacity(alloc, items.len())?;
    for item in items {
        let number = row_number(item).ok_or(BodyFault::BadBody)?;
        numbers.push_reserved(number);
    }
    Ok(numbers)
}

/// Reads a list of numbers of rows from the member of that name.
pub(crate) fn numbers<const KIND: u8>(
    alloc: Global,
    value: &Value,
    name: &str,
) -> Result<Numbers<KIND>, BodyFault>
    requires { size (view value.now) ≤ 65_537 }
    ensures ok { IfOk result (λ numbers. numbers_at name.now (view value.now) ≡ Some numbers) }
    ensures bad { IfErr result (λ fault. fault ≡ BadBody → numbers_at name.now (view value.now) ≡ None) }
{
    let list = value.get(name).ok_or(BodyFault::BadBody)?;
    match Numbers::new(listed(alloc, list)?) {
        Some(numbers) => Ok(numbers),
        // No list is longer than its body.
        None => unreachable!(),
    }
}

pub(crate) fn flag(value: &Value, name: &str) -> Result<bool, BodyFault>
    ensures ok { IfOk result (λ flag. bool_at name.now (view value.now) ≡ Some flag) }
    ensures bad { IfErr result (λ fault. fault ≡ BadBody → bool_at name.now (view value.now) ≡ None) }
{
    let flag = value.get(name).ok_or(BodyFault::BadBody)?;
    flag.as_bool().ok_or(BodyFault::BadBody)
}

/// Returns the rental that a payment is of, or that it is of none, as a null says.
pub(crate) fn rental_or_none(value: &Value) -> Result<Option<RentalNo>, BodyFault>
    ensures ok { IfOk result (λ rental. rental_at (view value.now) ≡ Some rental) }
    ensures bad { IfErr result (λ fault. fault ≡ BadBody → rental_at (view value.now) ≡ None) }
{
    let rental = value.get("rental").ok_or(BodyFault::BadBody)?;
    if rental.is_null() {
        return Ok(None);
    }
    Ok(Some(number(value, "rental")?))
}

fn cents(value: &Value) -> Option<Amount>
    ensures { result ≡ amount_at (view value.now) }
{
    match value.get("amount")?.as_u64()? {
        cents @ 0..=99_999 => Amount::new(cents as u32),
        _ => None,
    }
}

/// Returns what a payment is of.
pub(crate) fn amount(value: &Value) -> Result<Amount, BodyFault>
    ensures ok { IfOk result (λ amount. amount_at (view value.now) ≡ Some amount) }
    ensures bad { IfErr result (λ fault. fault ≡ BadBody → amount_at (view value.now) ≡ None) }
{
    cents(value).ok_or(BodyFault::BadBody)
}

pub(crate) fn text<const LOW: usize, const HIGH: usize>(
    alloc: Global,
    value: &Value,
    name: &str,
) -> Result<Text<LOW, HIGH>, BodyFault>
    ensures ok { IfOk result (λ text. text_at LOW HIGH name.now (view value.now) ≡ Some text) }
    ensures bad { IfErr result (λ fault. fault ≡ BadBody → text_at LOW HIGH name.now (view value.now) ≡ None) }
{
    let text = string(value, name).ok_or(BodyFault::BadBody)?;
    Text::read(String::from_str(alloc, text)?).ok_or(BodyFault::BadBody)
}

/// Returns the first name and the last.
fn names(alloc: Global, value: &Value) -> Result<(T45, T45), BodyFault>
    ensures ok { IfOk result (λ names. names_at (view value.now) ≡ Some names) }
    ensures bad { IfErr result (λ fault. fault ≡ BadBody → names_at (view value.now) ≡ None) }
{
    Ok((text(alloc, value, "first")?, text(alloc, value, "last")?))
}

/// Returns the address, the postal code and the telephone number.
fn contact(alloc: Global, value: &Value) -> Result<(T128, L45, L45), BodyFault>
    ensures ok { IfOk result (λ contact. contact_at (view value.now) ≡ Some contact) }
    ensures bad { IfErr result (λ fault. fault ≡ BadBody → contact_at (view value.now) ≡ None) }
{
    Ok((
        text(alloc, value, "address")?,
        text(alloc, value, "postal")?,
        text(alloc, value, "phone")?,
    ))
}

pub(crate) fn person(alloc: Global, value: &Value) -> Result<Person, BodyFault>
    ensures ok { IfOk result (λ person. person_at (view value.now) ≡ Some (seen_person person)) }
    ensures bad { IfErr result (λ fault. fault ≡ BadBody → person_at (view value.now) ≡ None) }
{
    let city = number(value, "city")?;
    let (first, last) = names(alloc, value)?;
    let (address, postal, phone) = contact(alloc, value)?;
    Ok(Person {
        first,
        last,
        address,
        postal,
        phone,
        city,
    })
}

/// Returns the value that a body writes.
pub(crate) fn value_of(alloc: Global, body: &[u8]) -> Result<Value, BodyFault>
    ensures ok { IfOk result (λ value. body_of body.now ≡ Some (view value)) }
    ensures bad { IfErr result (λ fault. fault ≡ BadBody → body_of body.now ≡ None) }
    ensures small { length body.now ≤ 65_536 → IfOk result (λ value. size (view value) ≤ 65_537) }
{
    match Value::from_slice(alloc, body) {
        Ok(value) => Ok(value),
        Err(e) if e.is_memory() => Err(BodyFault::NoMemory),
        Err(_) => Err(BodyFault::BadBody),
    }
}
