//! The cells and rows of bodies, each value as a text.

ghost use Rattle.std.specs.Prelude.{◌≡◌, Some, None, IfOk, IfErr, map, option_map, string_bytes};
ghost use Rattle.serde_json.specs.View.{view};
ghost use Rattle.till_shows.specs.Bodies.{numbers_in};
ghost use Rattle.till_shows.specs.Numbers.{commas};
ghost use Rattle.till_shows.specs.Fields.{plain_field, number_field, money_field, searched_field, yes_text, plain_text};
ghost use Rattle.till_shows.specs.Fields.{value_text, field_text, row_of};
ghost use Rattle.till_shows.specs.Tables.{seen_headings, seen_sides};
ghost use Rattle.till_shows.specs.declared.parts.Form.TheVariants.{Money};
ghost use Rattle.till_shows.specs.declared.bodies.NotShown.TheVariants.{OtherForm};

use crate::bodies::{NotShown, numbers_in};
use crate::cents::money;
use crate::numbers::plain_commas;
use crate::tables::{Column, Row, Side};
use serde_json::Value;
use std::alloc::{AllocError, Global};
use std::marker::Model;

/// How a member's value is shown.
#[derive(Clone, Copy)]
pub(crate) enum Form {
    /// A text or a number as it is, a list with commas, true and false as yes and no, and null as an empty text.
    Plain,
    /// Cents as money.
    Money,
}

/// A member of an object, and how it is shown.
#[derive(Drop)]
pub(crate) struct Member {
    pub(crate) name: &'static str,
    pub(crate) heading: &'static str,
    form: Form,
    side: Side,
    /// Whether a search looks for a part in its text.
    pub(crate) is_searched: bool,
}

impl Model for Member {
    ghost use Rattle.till_shows.specs.Fields.{Field};

    ghost Value = { Field };

    ghost view = { λ a. record {
      name = a.name.now;
      heading = a.heading.now;
      form = a.form;
      side = a.side;
      is_searched = a.is_searched;
    } };
}

pub(crate) fn plain(name: &'static str, heading: &'static str) -> Member
    ensures { result ≡ plain_field name.now heading.now }
{
    Member {
        name,
        heading,
        form: Form::Plain,
        side: Side::Left,
        is_searched: false,
    }
}

pub(crate) fn number(name: &'static str, heading: &'static str) -> Member
    ensures { result ≡ number_field name.now heading.now }
{
    Member {
        name,
        heading,
        form: Form::Plain,
        side: Side::Right,
        is_searched: false,
    }
}

pub(crate) fn money_part(name: &'static str, heading: &'static str) -> Member
    ensures { result ≡ money_field name.now heading.now }
{
    Member {
        name,
        heading,
        form: Form::Money,
        side: Side::Right,
        is_searched: false,
    }
}

pub(crate) fn searched(name: &'static str, heading: &'static str) -> Member
    ensures { result ≡ searched_field name.now heading.now }
{
    Member {
        name,
        heading,
        form: Form::Plain,
        side: Side::Left,
        is_searched: true,
    }
}

fn yes(flag: bool) -> &'static str
    ensures { result.now ≡ yes_text flag }
{
    if flag { "yes" } else { "no" }
}

/// Returns the numbers of a list, with commas between.
fn listed_text(alloc: Global, value: &Value) -> Result<String, NotShown>
    ensures shown { IfOk result (λ text. option_map commas (numbers_in (view value.now)) ≡ Some (string_bytes text)) }
    ensures other { IfErr result (λ fault. fault ≡ OtherForm → numbers_in (view value.now) ≡ None) }
{
    let numbers = numbers_in(alloc, value)?;
    Ok(plain_commas(alloc, numbers.as_slice())?)
}

fn plain_text(alloc: Global, value: &Value) -> Result<String, NotShown>
    ensures shown { IfOk result (λ text. plain_text (view value.now) ≡ Some (string_bytes text)) }
    ensures other { IfErr result (λ fault. fault ≡ OtherForm → plain_text (view value.now) ≡ None) }
{
    if let Some(text) = value.as_str() {
        return Ok(String::from_str(alloc, text)?);
    }
    if let Some(number) = value.as_u64() {
        return Ok(format!(in alloc; "{number}")?);
    }
    if let Some(flag) = value.as_bool() {
        return Ok(String::from_str(alloc, yes(flag))?);
    }
    if value.is_null() {
        Ok(String::new(alloc))
    } else {
        listed_text(alloc, value)
    }
}

fn money_text(alloc: Global, value: &Value) -> Result<String, NotShown>
    ensures shown { IfOk result (λ text. value_text Money (view value.now) ≡ Some (string_bytes text)) }
    ensures other { IfErr result (λ fault. fault ≡ OtherForm → value_text Money (view value.now) ≡ None) }
{
    match value.as_i64() {
        Some(cents) => Ok(money(alloc, cents)?),
        None => Err(NotShown::OtherForm),
    }
}

/// Returns the value as a text of this form.
fn value_text(alloc: Global, value: &Value, form: Form) -> Result<String, NotShown>
    ensures shown { IfOk result (λ text. value_text form (view value.now) ≡ Some (string_bytes text)) }
    ensures other { IfErr result (λ fault. fault ≡ OtherForm → value_text form (view value.now) ≡ None) }
{
    match form {
        Form::Plain => plain_text(alloc, value),
        Form::Money => money_text(alloc, value),
    }
}

/// Returns the text of the object's member that the part names.
pub(crate) fn part_text(alloc: Global, value: &Value, part: &Member) -> Result<String, NotShown>
    ensures shown { IfOk result (λ text. field_text (view value.now) part.now ≡ Some (string_bytes text)) }
    ensures other { IfErr result (λ fault. fault ≡ OtherForm → field_text (view value.now) part.now ≡ None) }
{
    match value.get(part.name) {
        Some(member) => value_text(alloc, member, part.form),
        None => Err(NotShown::OtherForm),
    }
}

/// Returns the object's row: the texts of the parts.
pub(crate) fn row_text(alloc: Global, value: &Value, parts: &[Member]) -> Result<Row, NotShown>
    ensures shown { IfOk result (λ row. row_of parts.now (view value.now) ≡ Some row) }
    ensures other { IfErr result (λ fault. fault ≡ OtherForm → row_of parts.now (view value.now) ≡ None) }
{
    let mut row = Row::new(alloc);
    for part in parts {
        let text = part_text(alloc, value, part)?;
        row.push(text)?;
    }
    Ok(row)
}

pub(crate) fn columns_of(alloc: Global, parts: &[Member]) -> Result<Vec<Column>, AllocError>
    ensures sides { IfOk result (λ columns. seen_sides columns.items ≡ map (λ field. field.side) parts.now) }
    ensures headings { IfOk result (λ columns. seen_headings columns.items ≡ map (λ field. field.heading) parts.now) }
{
    let mut columns = Vec::new(alloc);
    for part in parts {
        columns.push(Column {
            heading: part.heading,
            side: part.side,
        })?;
    }
    Ok(columns)
}
