//! Whether a person who joins is a customer already.

use crate::caches::Shelf;
use crate::clock::WallClock;
use crate::desk::Desk;
use crate::fault::TillFault;
use crate::lists::{List, found};
use caseless::default_caseless_match_str;
use serde_json::Value;
use shop_types::Person;
use std::alloc::{AllocError, Global};
use till_work::Server;

/// A customer of the branch, from the list of customers.
#[derive(Drop)]
pub(crate) struct KnownCustomer {
    pub(crate) number: u64,
    pub(crate) name: String,
}

/// Tests whether a byte of a telephone number counts. Hyphens and blanks don't.
fn counts(byte: u8) -> bool {
    byte != b'-' && byte != b' '
}

/// Returns the telephone number without hyphens and blanks.
fn bare_phone(alloc: Global, phone: &str) -> Result<Vec<u8>, AllocError> {
    let mut bare = Vec::new(alloc);
    for byte in phone.as_bytes() {
        if counts(*byte) {
            bare.push(*byte)?;
        }
    }
    Ok(bare)
}

/// Tests whether both are the same telephone number.
fn is_same_phone(alloc: Global, one: &str, two: &str) -> Result<bool, AllocError> {
    let bare = bare_phone(alloc, one)?;
    let other = bare_phone(alloc, two)?;
    Ok(bare.as_slice() == other.as_slice())
}

/// Returns the object's text of that name.
fn text_in<'v>(row: &'v Value, name: &str) -> Option<&'v str> {
    row.get(name)?.as_str()
}

/// Returns the customer of the row, if it has that name and telephone number. Ignores upper and lower case of the name.
fn customer_in(
    alloc: Global,
    row: &Value,
    name: &str,
    phone: &str,
) -> Result<Option<KnownCustomer>, AllocError> {
    let (Some(own_name), Some(own_phone)) = (text_in(row, "name"), text_in(row, "phone")) else {
        return Ok(None);
    };
    if !default_caseless_match_str(own_name, name) || !is_same_phone(alloc, own_phone, phone)? {
        return Ok(None);
    }
    let Some(number) = row.get("id").and_then(|id| id.as_u64()) else {
        return Ok(None);
    };
    Ok(Some(KnownCustomer {
        number,
        name: String::from_str(alloc, own_name)?,
    }))
}

/// Returns the first customer in the body's list with that name and telephone number.
fn customer_named(
    alloc: Global,
    body: &[u8],
    name: &str,
    phone: &str,
) -> Result<Option<KnownCustomer>, AllocError> {
    let Ok(Value::Array(rows)) = Value::from_slice(alloc, body) else {
        return Ok(None);
    };
    for row in rows.as_slice() {
        if let Some(it) = customer_in(alloc, row, name, phone)? {
            return Ok(Some(it));
        }
    }
    Ok(None)
}

/// Returns the branch's customer with the person's name and telephone number, if the list of customers has one. The list
/// is the kept one, or a new one if nobody with these words is in that.
pub(crate) fn namesake<K: WallClock, V: Server, L: Shelf>(
    desk: &Desk<'_, K, V, L>,
    person: &Person,
) -> Result<Option<KnownCustomer>, TillFault> {
    let alloc = desk.alloc;
    let (first, last) = (person.first.as_str(), person.last.as_str());
    let phone = person.phone.as_str();
    let name = format!(in alloc; "{first} {last}")?;
    let words = format!(in alloc; "{name} {phone}")?;
    let it = found(desk, List::Customers, words.as_str())?;
    Ok(customer_named(alloc, it.answer.body.as_slice(), name.as_str(), phone)?)
}
