//! Builds the target and the body of each command's request. No contract here says what they mean: the request is read
//! back later.

use serde_json::{Map, Value, put};
use shop_types::{Act, LotName, Moment, Person, RentalNo, RowNumber, StaffNo};
use std::alloc::{AllocError, Global};

/// Who gives a command, when, and under which key.
#[derive(Drop)]
pub(crate) struct Giver {
    pub key: String,
    pub staff: StaffNo,
    pub at: Moment,
}

/// Returns the path to which an import is sent.
fn import_target(alloc: Global, giver: &Giver, lot: &LotName) -> Result<String, AllocError> {
    let key = giver.key.as_str();
    let staff = giver.staff.get();
    let at = giver.at;
    let lot = lot.as_str();
    format!(in alloc; "/import/{key}/{staff}/{at}/{lot}")
}

/// Returns the path to which a command is sent.
pub(crate) fn target_of(alloc: Global, giver: &Giver, act: &Act) -> Result<String, AllocError> {
    let path = match act {
        Act::Customer(_) => "/customer",
        Act::Active { .. } => "/customer-active",
        Act::Rent { .. } => "/rent",
        Act::TakeBack(_) => "/return",
        Act::Pay { .. } => "/pay",
        Act::Import { lot, .. } => return import_target(alloc, giver, lot),
        Act::Dispatch { .. } => "/dispatch",
        Act::Receive { .. } => "/receive",
        Act::Scrap(_) => "/scrap",
    };
    String::from_str(alloc, path)
}

/// The members of a JSON object.
type Members = Map<String, Value>;

fn put_text(
    alloc: Global,
    members: &mut Members,
    name: &str,
    text: &str,
) -> Result<(), AllocError> {
    let text = Value::try_from_str(alloc, text)?;
    put(members, alloc, name, text)
}

fn put_number(
    alloc: Global,
    members: &mut Members,
    name: &str,
    number: u32,
) -> Result<(), AllocError> {
    put(members, alloc, name, Value::from(number))
}

fn put_numbers<const KIND: u8>(
    alloc: Global,
    members: &mut Members,
    name: &str,
    numbers: &[RowNumber<KIND>],
) -> Result<(), AllocError> {
    let mut list = Vec::new(alloc);
    for number in numbers {
        list.push(Value::from(number.get()))?;
    }
    put(members, alloc, name, Value::Array(list))
}

fn put_person(alloc: Global, members: &mut Members, person: &Person) -> Result<(), AllocError> {
    put_text(alloc, members, "first", person.first.as_str())?;
    put_text(alloc, members, "last", person.last.as_str())?;
    put_text(alloc, members, "address", person.address.as_str())?;
    put_text(alloc, members, "postal", person.postal.as_str())?;
    put_text(alloc, members, "phone", person.phone.as_str())?;
    put_number(alloc, members, "city", person.city.get())
}

/// Puts the rental that a payment is for, or null if it is for none.
fn put_rental(
    alloc: Global,
    members: &mut Members,
    rental: Option<RentalNo>,
) -> Result<(), AllocError> {
    match rental {
        Some(rental) => put_number(alloc, members, "rental", rental.get()),
        None => put(members, alloc, "rental", Value::Null),
    }
}

/// Puts the members that say what a command does. An import has none.
fn put_act(alloc: Global, members: &mut Members, act: &Act) -> Result<(), AllocError> {
    match act {
        Act::Customer(it) => put_person(alloc, members, &it.person),
        Act::Active { customer, active } => {
            put_number(alloc, members, "customer", customer.get())?;
            put(members, alloc, "active", Value::from(*active))
        }
        Act::Rent { customer, copy } => {
            put_number(alloc, members, "customer", customer.get())?;
            put_number(alloc, members, "copy", copy.get())
        }
        Act::TakeBack(rental) => put_number(alloc, members, "rental", rental.get()),
        Act::Pay {
            customer,
            rental,
            amount,
        } => {
            put_number(alloc, members, "customer", customer.get())?;
            put_rental(alloc, members, *rental)?;
            put_number(alloc, members, "amount", amount.get())
        }
        Act::Import { .. } => Ok(()),
        Act::Dispatch { to, copies } => {
            put_number(alloc, members, "to", to.get())?;
            put_numbers(alloc, members, "copies", copies.as_slice())
        }
        Act::Receive {
            from,
            number,
            missing,
        } => {
            put_number(alloc, members, "from", from.get())?;
            put_number(alloc, members, "number", number.get())?;
            put_numbers(alloc, members, "missing", missing.as_slice())
        }
        Act::Scrap(copy) => put_number(alloc, members, "copy", copy.get()),
    }
}

fn put_giver(alloc: Global, members: &mut Members, giver: &Giver) -> Result<(), AllocError> {
    let at = giver.at.to_string(alloc)?;
    put_text(alloc, members, "key", giver.key.as_str())?;
    put_number(alloc, members, "staff", giver.staff.get())?;
    put_text(alloc, members, "at", at.as_str())
}

/// Returns the JSON object that says a command.
fn json_body(alloc: Global, giver: &Giver, act: &Act) -> Result<Vec<u8>, AllocError> {
    let mut members = Map::new(alloc);
    put_giver(alloc, &mut members, giver)?;
    put_act(alloc, &mut members, act)?;
    Value::Object(members).to_vec(alloc)
}

/// Returns the body of a command's request: the stock file itself for an import, else JSON.
pub(crate) fn body_of(alloc: Global, giver: &Giver, act: &Act) -> Result<Vec<u8>, AllocError> {
    match act {
        Act::Import { file, .. } => Vec::from_slice(alloc, file.as_slice()),
        Act::Customer(_)
        | Act::Active { .. }
        | Act::Rent { .. }
        | Act::TakeBack(_)
        | Act::Pay { .. }
        | Act::Dispatch { .. }
        | Act::Receive { .. }
        | Act::Scrap(_) => json_body(alloc, giver, act),
    }
}
