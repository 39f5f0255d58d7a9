//! Shows one object as a sheet, with a line for each part.

ghost use Rattle.std.specs.Prelude.{◌≡◌, ◌++◌, ℕ, List, Some, None, IfOk, IfErr, OnOk, IfSome, IfNone, codes, string_bytes};
ghost use Rattle.serde_json.specs.View.{view};
ghost use Rattle.shop_model.specs.Calendar.{Moment as AnyMoment, IsMoment, moment_text};
ghost use Rattle.till_shows.specs.Bodies.{text_at};
ghost use Rattle.till_shows.specs.Sheets.{sheet_line, field_line, sheet_of, film_sheet_fields, customer_sheet_fields};
ghost use Rattle.till_shows.specs.Sheets.{film_sheet_in, IsCustomerSheet};
ghost use Rattle.till_shows.specs.Times.{moment_text as moment_in_words};
ghost use Rattle.till_shows.specs.declared.bodies.NotShown.TheVariants.{OtherForm};

use crate::bodies::{NotShown, text_at, value_of};
use crate::moments::moment_words;
use crate::parts::{Member, money_part, part_text, plain};
use serde_json::Value;
use shop_types::Moment;
use std::alloc::{AllocError, Global};

/// Returns a line with a heading and a text.
fn sheet_line(alloc: Global, heading: &str, text: &str) -> Result<String, AllocError>
    ensures { IfOk result (λ s. string_bytes s ≡ sheet_line heading.now text.now) }
{
    format!(in alloc; "{heading}: {text}\n")
}

fn part_line(alloc: Global, value: &Value, part: &Member) -> Result<String, NotShown>
    ensures shown { IfOk result (λ line. field_line (view value.now) part.now ≡ Some (string_bytes line)) }
    ensures other { IfErr result (λ fault. fault ≡ OtherForm → field_line (view value.now) part.now ≡ None) }
{
    let text = part_text(alloc, value, part)?;
    Ok(sheet_line(alloc, part.heading, text.as_str())?)
}

/// Returns a line for each part: its heading and its text.
fn sheet(alloc: Global, value: &Value, parts: &[Member]) -> Result<String, NotShown>
    ensures shown { IfOk result (λ sheet. sheet_of parts.now (view value.now) ≡ Some (string_bytes sheet)) }
    ensures other { IfErr result (λ fault. fault ≡ OtherForm → sheet_of parts.now (view value.now) ≡ None) }
{
    let mut sheet = String::new(alloc);
    for part in parts {
        let line = part_line(alloc, value, part)?;
        sheet.push_str(line.as_str())?;
    }
    Ok(sheet)
}

fn customer_parts() -> [Member; 8]
    ensures { result ≡ customer_sheet_fields }
{
    [
        plain("customer", "customer"),
        plain("first", "first name"),
        plain("last", "last name"),
        plain("phone", "phone"),
        plain("address", "address"),
        plain("postal", "postal code"),
        plain("city", "city"),
        plain("active", "may rent"),
    ]
}

/// Returns the lines that begin every customer's sheet.
fn customer_front(alloc: Global, value: &Value) -> Result<String, NotShown>
    ensures shown { IfOk result (λ sheet. sheet_of customer_sheet_fields (view value.now)
        ≡ Some (string_bytes sheet)) }
    ensures other { IfErr result (λ fault. fault ≡ OtherForm
        → sheet_of customer_sheet_fields (view value.now) ≡ None) }
{
    sheet(alloc, value, customer_parts().as_slice())
}

/// Returns the moment at which the customer was added.
fn created(value: &Value) -> Option<Moment>
    ensures moment { IfSome result IsMoment }
    ensures some { IfSome result (λ at. text_at (codes "created") (view value.now) ≡ Some (moment_text at)) }
    ensures none { IfNone result ((at : AnyMoment) → IsMoment at
        → ¬ (text_at (codes "created") (view value.now) ≡ Some (moment_text at))) }
{
    match text_at(value, "created") {
        Some(text) => Moment::read(text),
        None => None,
    }
}

/// Adds a line that says when the customer joined.
fn add_joined(alloc: Global, created: Moment, sheet: &mut String) -> Result<(), NotShown>
    ensures added { OnOk result (string_bytes sheet.new
        ≡ string_bytes sheet.old ++ sheet_line (codes "joined") (moment_in_words created)) }
    ensures other { IfErr result (λ fault. ¬ (fault ≡ OtherForm)) }
{
    let words = moment_words(alloc, created)?;
    let line = sheet_line(alloc, "joined", words.as_str())?;
    sheet.push_str(line.as_str())?;
    Ok(())
}

/// Returns the sheet for the body of `GET /customer/{n}`: a line for each part, each ended by a line feed. Fails with
/// `OtherForm` only if the body has no sheet, and with `NoMemory` if memory runs out.
pub fn customer_sheet(alloc: Global, body: &[u8]) -> Result<String, NotShown>
    ensures shown { IfOk result (λ sheet. IsCustomerSheet body.now (string_bytes sheet)) }
    ensures other { IfErr result (λ fault. fault ≡ OtherForm
        → (sheet : List ℕ) → ¬ IsCustomerSheet body.now sheet) }
{
    let value = value_of(alloc, body)?;
    let mut sheet = customer_front(alloc, &value)?;
    let Some(created) = created(&value) else {
        return Err(NotShown::OtherForm);
    };
    add_joined(alloc, created, &mut sheet)?;
    Ok(sheet)
}

fn film_parts() -> [Member; 10]
    ensures { result ≡ film_sheet_fields }
{
    [
        plain("film", "film"),
        plain("title", "title"),
        plain("rating", "rating"),
        plain("length", "minutes"),
        money_part("rate", "price"),
        plain("period", "days"),
        money_part("replacement", "replacement"),
        plain("features", "features"),
        plain("description", "description"),
        plain("withdrawn", "withdrawn"),
    ]
}

fn film_lines(alloc: Global, value: &Value) -> Result<String, NotShown>
    ensures shown { IfOk result (λ sheet. sheet_of film_sheet_fields (view value.now) ≡ Some (string_bytes sheet)) }
    ensures other { IfErr result (λ fault. fault ≡ OtherForm → sheet_of film_sheet_fields (view value.now) ≡ None) }
{
    sheet(alloc, value, film_parts().as_slice())
}

/// Returns the sheet for the body of `GET /film/{n}`: a line for each part, each ended by a line feed.
pub fn film_sheet(alloc: Global, body: &[u8]) -> Result<String, NotShown>
    ensures shown { IfOk result (λ sheet. film_sheet_in body.now ≡ Some (string_bytes sheet)) }
    ensures other { IfErr result (λ fault. fault ≡ OtherForm → film_sheet_in body.now ≡ None) }
{
    let value = value_of(alloc, body)?;
    film_lines(alloc, &value)
}
