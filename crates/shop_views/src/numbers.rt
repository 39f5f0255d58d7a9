ghost use Rattle.std.specs.Prelude.{◌≡◌, ℕ, List, [], ◌∷◌, length, IfOk, string_bytes};
ghost use Rattle.serde_json.specs.View.{view};
ghost use Rattle.shop_model.specs.Json.{numbers_text, object};
ghost use Rattle.shop_model.specs.Acts.{numbers_from};
ghost use Rattle.std.specs.List.{range_with_len};
ghost use Rattle.shop_views.specs.Texts.{json_text};
ghost use Rattle.shop_views.specs.Bodies.{numbers_value, listed_value, named_value};

use serde_json::{Map, Value, put};
use shop_types::RowNumber;
use std::alloc::{AllocError, Global};

/// Makes the list of the numbers.
pub(crate) fn numbers_value<const KIND: u8>(
    alloc: Global,
    numbers: &[RowNumber<KIND>],
) -> Result<Value, AllocError>
    ensures { IfOk result (λ v. view v ≡ numbers_value numbers.now) }
{
    let mut values = Vec::with_capacity(alloc, numbers.len())?;
    for number in numbers {
        values.push_reserved(Value::from(number.get()));
    }
    Ok(Value::Array(values))
}

/// Makes the object that has the numbers under the name, and their count.
fn listed_value<const KIND: u8>(
    alloc: Global,
    name: &'static str,
    numbers: &[RowNumber<KIND>],
) -> Result<Value, AllocError>
    ensures { IfOk result (λ v. view v ≡ listed_value name.now numbers.now) }
{
    let values = numbers_value(alloc, numbers)?;
    let mut map = Map::new(alloc);
    put(&mut map, alloc, name, values)?;
    put(&mut map, alloc, "count", Value::from(numbers.len()))?;
    Ok(Value::Object(map))
}

/// Writes the text of the object that has the numbers under the name, and their count.
pub(crate) fn listed_text<const KIND: u8>(
    alloc: Global,
    name: &'static str,
    numbers: &[RowNumber<KIND>],
) -> Result<String, AllocError>
    ensures { IfOk result (λ s. string_bytes s ≡ json_text (listed_value name.now numbers.now)) }
{
    listed_value(alloc, name, numbers)?.to_string(alloc)
}

/// Makes the list of `count` consecutive numbers, from `first` on.
fn counted_value(alloc: Global, first: u32, count: u32) -> Result<Value, AllocError>
    ensures { IfOk result (λ v. view v ≡ numbers_value (range_with_len first count)) }
{
    let mut values = Vec::with_capacity(alloc, count as usize)?;
    for at in 0..count {
        values.push_reserved(Value::from(first as u64 + at as u64));
    }
    Ok(Value::Array(values))
}

/// Makes the object that has the consecutive numbers under the name.
fn named_value(
    alloc: Global,
    name: &'static str,
    first: u32,
    count: u32,
) -> Result<Value, AllocError>
    ensures { IfOk result (λ v. view v ≡ named_value name.now (range_with_len first count)) }
{
    let values = counted_value(alloc, first, count)?;
    let mut map = Map::new(alloc);
    put(&mut map, alloc, name, values)?;
    Ok(Value::Object(map))
}

/// Writes the text of the object that has the consecutive numbers under the name. If there are none, the list is
/// empty.
pub fn counted_text(
    alloc: Global,
    name: &'static str,
    first: u32,
    count: u32,
) -> Result<String, AllocError>
    ensures { IfOk result (λ s. (items : List ℕ) → length items ≡ count
        → string_bytes s ≡ object ((name.now, numbers_text (numbers_from first items)) ∷ [])) }
{
    named_value(alloc, name, first, count)?.to_string(alloc)
}
