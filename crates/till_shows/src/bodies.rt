//! Reads the body of a reply, a JSON value (RFC 8259).

ghost use Rattle.std.specs.Prelude.{◌≡◌, Some, None, IfOk, IfErr, map, option_map, string_bytes};
ghost use Rattle.serde_json.specs.View.{view};
ghost use Rattle.till_shows.specs.Bodies.{body_of, each, whole_number, cents_in, rows_in, numbers_in, text_at};
ghost use Rattle.till_shows.specs.Bodies.{number_at, cents_at, flag_at, numbers_at, has_number};
ghost use Rattle.till_shows.specs.declared.bodies.NotShown.TheVariants.{NoMemory as OutOfMemory, OtherForm};

use serde_json::Value;
use shop_types::NoMemory as NoMemoryLeft;
use std::alloc::{AllocError, Global};

/// Why the body of a reply isn't shown.
#[derive(Clone, Copy, Debug)]
pub enum NotShown {
    /// There was no memory left.
    NoMemory,
    /// The body isn't of the form that was looked for.
    OtherForm,
}

impl From<AllocError> for NotShown {
    ghost from_gives = { λ _ fault. fault ≡ OutOfMemory };

    fn from(_error: AllocError) -> NotShown {
        NotShown::NoMemory
    }
}

impl From<NoMemoryLeft> for NotShown {
    ghost from_gives = { λ _ fault. fault ≡ OutOfMemory };

    fn from(_error: NoMemoryLeft) -> NotShown {
        NotShown::NoMemory
    }
}

/// Returns the value that the body is.
pub(crate) fn value_of(alloc: Global, body: &[u8]) -> Result<Value, NotShown>
    ensures shown { IfOk result (λ value. body_of body.now ≡ Some (view value)) }
    ensures other { IfErr result (λ fault. fault ≡ OtherForm → body_of body.now ≡ None) }
{
    match Value::from_slice(alloc, body) {
        Ok(value) => Ok(value),
        Err(error) if error.is_memory() => Err(NotShown::NoMemory),
        Err(_) => Err(NotShown::OtherForm),
    }
}

/// Returns the values of a list.
pub(crate) fn rows_of(value: &Value) -> Option<&[Value]>
    ensures { option_map (λ rows. map view rows.now) result ≡ rows_in (view value.now) }
{
    match value.as_array() {
        Some(items) => Some(items.as_slice()),
        None => None,
    }
}

pub(crate) fn text_at<'v>(value: &'v Value, name: &str) -> Option<&'v str>
    ensures { option_map (λ text. text.now) result ≡ text_at name.now (view value.now) }
{
    value.get(name)?.as_str()
}

fn whole_number(value: &Value) -> Option<u64>
    ensures { result ≡ whole_number (view value.now) }
{
    value.as_u64()
}

pub(crate) fn number_at(value: &Value, name: &str) -> Option<u64>
    ensures { result ≡ number_at name.now (view value.now) }
{
    value.get(name)?.as_u64()
}

pub(crate) fn cents_at(value: &Value, name: &str) -> Option<i64>
    ensures { result ≡ cents_at name.now (view value.now) }
{
    value.get(name)?.as_i64()
}

pub(crate) fn flag_at(value: &Value, name: &str) -> Option<bool>
    ensures { result ≡ flag_at name.now (view value.now) }
{
    value.get(name)?.as_bool()
}

/// Reports whether the object's member of this name is this number.
pub(crate) fn has_number(value: &Value, name: &str, number: u64) -> bool
    ensures { result ≡ has_number name.now number (view value.now) }
{
    match number_at(value, name) {
        Some(it) => it == number,
        None => false,
    }
}

/// Returns a copy of the text in the object's member of this name.
pub(crate) fn owned_text(alloc: Global, value: &Value, name: &str) -> Result<String, NotShown>
    ensures shown { IfOk result (λ text. text_at name.now (view value.now) ≡ Some (string_bytes text)) }
    ensures other { IfErr result (λ fault. fault ≡ OtherForm → text_at name.now (view value.now) ≡ None) }
{
    match text_at(value, name) {
        Some(text) => Ok(String::from_str(alloc, text)?),
        None => Err(NotShown::OtherForm),
    }
}

/// Returns the values as numbers.
fn numbers_of(alloc: Global, items: &[Value]) -> Result<Vec<u64>, NotShown>
    ensures shown { IfOk result (λ numbers. each whole_number (map view items.now) ≡ Some numbers.items) }
    ensures other { IfErr result (λ fault. fault ≡ OtherForm → each whole_number (map view items.now) ≡ None) }
{
    let mut numbers = Vec::new(alloc);
    for item in items {
        let Some(number) = whole_number(item) else {
            return Err(NotShown::OtherForm);
        };
        let Ok(()) = numbers.push(number) else {
            return Err(NotShown::NoMemory);
        };
    }
    Ok(numbers)
}

/// Returns the numbers of a list.
pub(crate) fn numbers_in(alloc: Global, value: &Value) -> Result<Vec<u64>, NotShown>
    ensures shown { IfOk result (λ numbers. numbers_in (view value.now) ≡ Some numbers.items) }
    ensures other { IfErr result (λ fault. fault ≡ OtherForm → numbers_in (view value.now) ≡ None) }
{
    match rows_of(value) {
        Some(items) => numbers_of(alloc, items),
        None => Err(NotShown::OtherForm),
    }
}

/// Returns the numbers of the list in the object's member of this name.
pub(crate) fn numbers_at(alloc: Global, value: &Value, name: &str) -> Result<Vec<u64>, NotShown>
    ensures shown { IfOk result (λ numbers. numbers_at name.now (view value.now) ≡ Some numbers.items) }
    ensures other { IfErr result (λ fault. fault ≡ OtherForm → numbers_at name.now (view value.now) ≡ None) }
{
    match value.get(name) {
        Some(member) => numbers_in(alloc, member),
        None => Err(NotShown::OtherForm),
    }
}
