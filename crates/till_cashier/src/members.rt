//! Members of the objects in the server's lists.

ghost use Rattle.std.specs.Prelude.{◌≡◌, true, Some, IfSome, string_bytes};
ghost use Rattle.std.specs.List.{Contains};
ghost use Rattle.serde_json.specs.View.{view};
ghost use Rattle.till_shows.specs.Bodies.{number_at, text_at};
ghost use Rattle.till_cashier.specs.Late.{IsRowOf};

use serde_json::Value;
use std::alloc::Global;

/// Returns the number of the object's member of that name, if it is one of 32 bits.
pub(crate) fn number_at(row: &Value, name: &str) -> Option<u32>
    ensures { IfSome result (λ number. number_at name.now (view row.now) ≡ Some number) }
{
    u32::try_from(row.get(name)?.as_u64()?).ok()
}

/// Returns a copy of the text of the object's member of that name, if it is a text.
pub(crate) fn text_at(alloc: Global, row: &Value, name: &str) -> Option<String>
    ensures { IfSome result (λ text. text_at name.now (view row.now) ≡ Some (string_bytes text)) }
{
    let text = row.get(name)?.as_str()?;
    match String::from_str(alloc, text) {
        Ok(text) => Some(text),
        Err(_) => None,
    }
}

/// Tests whether the object's member of that name is the number.
fn has_number(row: &Value, name: &str, number: u32) -> bool
    ensures { result ≡ true → number_at name.now (view row.now) ≡ Some number }
{
    match number_at(row, name) {
        Some(it) => it == number,
        None => false,
    }
}

/// Returns the first of the objects whose member of that name is the number.
fn row_among<'v>(rows: &'v [Value], name: &str, number: u32) -> Option<&'v Value>
    ensures listed { IfSome result (λ row. Contains rows.now row.now) }
    ensures number { IfSome result (λ row. number_at name.now (view row.now) ≡ Some number) }
{
    for row in rows {
        if has_number(row, name, number) {
            return Some(row);
        }
    }
    None
}

/// Returns the first object of the list whose member of that name is the number.
pub(crate) fn row_with<'v>(list: &'v Value, name: &str, number: u32) -> Option<&'v Value>
    ensures listed { IfSome result (λ row. IsRowOf (view list.now) (view row.now)) }
    ensures number { IfSome result (λ row. number_at name.now (view row.now) ≡ Some number) }
{
    let list = list.as_array()?;
    row_among(list.as_slice(), name, number)
}
