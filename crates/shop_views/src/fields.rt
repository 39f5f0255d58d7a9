//! Objects as lists of their members.

ghost use Rattle.std.specs.Prelude.{◌≡◌, [], ◌∷◌, decimal, IfOk, OnOk, string_bytes};
ghost use Rattle.serde_json.specs.View.{view, members_view};
ghost use Rattle.shop_model.specs.Json.{object};
ghost use Rattle.shop_views.specs.Fields.{with_field, fields_value, fields_text};

use crate::numbers::numbers_value;
use serde_json::{Map, Value, put};
use shop_types::{FilmNo, RowNumber};
use std::alloc::{AllocError, Global};

/// A member of an object: its name and its value.
#[derive(Clone, Copy)]
pub enum Field<'a> {
    Number(&'static str, u64),
    Flag(&'static str, bool),
    Text(&'static str, &'a str),
    Null(&'static str),
    Films(&'static str, &'a [FilmNo]),
}

/// Adds the member to the object's members.
fn add(alloc: Global, map: &mut Map<String, Value>, field: Field) -> Result<(), AllocError>
    ensures { OnOk result (members_view map.new.entries ≡ with_field field.entry (members_view map.old.entries)) }
{
    match field {
        Field::Number(name, number) => put(map, alloc, name, Value::from(number)),
        Field::Flag(name, flag) => put(map, alloc, name, Value::from(flag)),
        Field::Text(name, text) => {
            let text = Value::try_from_str(alloc, text)?;
            put(map, alloc, name, text)
        }
        Field::Null(name) => put(map, alloc, name, Value::Null),
        Field::Films(name, films) => {
            let films = numbers_value(alloc, films)?;
            put(map, alloc, name, films)
        }
    }
}

/// Makes the object that has the members, in the byte order of their names.
pub fn object_of(alloc: Global, fields: &[Field]) -> Result<Value, AllocError>
    ensures { IfOk result (λ v. view v ≡ fields_value fields.now) }
{
    let mut map = Map::new(alloc);
    for field in fields {
        add(alloc, &mut map, *field)?;
    }
    Ok(Value::Object(map))
}

/// Writes the text of the object that has the members.
pub fn object_text(alloc: Global, fields: &[Field]) -> Result<String, AllocError>
    ensures { IfOk result (λ s. string_bytes s ≡ fields_text fields.now) }
{
    object_of(alloc, fields)?.to_string(alloc)
}

/// Writes the text of the object that has only the number, under the name.
pub fn number_text<const KIND: u8>(
    alloc: Global,
    name: &'static str,
    number: RowNumber<KIND>,
) -> Result<String, AllocError>
    ensures { IfOk result (λ s. string_bytes s ≡ object ((name.now, decimal number.entry) ∷ [])) }
{
    object_text(alloc, &[Field::Number(name, number.get() as u64)])
}
