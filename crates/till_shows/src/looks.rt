//! Shows the results of looks as lines.

ghost use Rattle.std.specs.Prelude.{◌≡◌, ◌++◌, Some, None, IfOk, IfErr, option_and_then, string_bytes};
ghost use Rattle.serde_json.specs.View.{view};
ghost use Rattle.till_shows.specs.Bodies.{body_of, numbers_at};
ghost use Rattle.till_shows.specs.Entries.{not_text};
ghost use Rattle.till_shows.specs.Looks.{who_text, unless_text, stock_text, in_stock_in, row_number, customer_or_none, holder_in, holder_text};
ghost use Rattle.till_shows.specs.Looks.{counted_or, copies_of_film, film_in_stock_in, film_not_in_stock_in};
ghost use Rattle.till_shows.specs.Looks.{balance_text, balance_in, rewards_in};
ghost use Rattle.till_shows.specs.declared.bodies.NotShown.TheVariants.{OtherForm};

use crate::bodies::{NotShown, cents_at, flag_at, numbers_at, value_of};
use crate::cents::amount;
use crate::numbers::plain_commas;
use serde_json::Value;
use shop_types::{CopyNo, CustomerNo, FilmNo};
use std::alloc::{AllocError, Global};

/// Returns the text before a word: nothing if the word is true, else `not `.
pub(crate) fn not(is: bool) -> &'static str
    ensures { result.now ≡ not_text is }
{
    if is { "" } else { "not " }
}

fn who(is_in: bool) -> &'static str
    ensures { result.now ≡ who_text is_in }
{
    if is_in { "no" } else { "a" }
}

/// Returns what is added of a copy that no customer has.
fn unless(is_in: bool) -> &'static str
    ensures { result.now ≡ unless_text is_in }
{
    if is_in {
        ": it is here, unless it was sent off or scrapped"
    } else {
        ""
    }
}

fn stock_text(alloc: Global, copy: CopyNo, is_in: bool) -> Result<String, AllocError>
    ensures { IfOk result (λ s. string_bytes s ≡ stock_text copy is_in) }
{
    let (who, unless) = (who(is_in), unless(is_in));
    format!(in alloc; "{who} customer has copy {}{unless}", copy.get())
}

/// Returns the line for the body of `GET /in-stock/{copy}`: `a customer has copy 4`, or that none has. The server looks
/// at rentals alone: the copy may have been sent to another branch or scrapped, and the line says so.
pub fn in_stock_line(alloc: Global, copy: CopyNo, body: &[u8]) -> Result<String, NotShown>
    ensures shown { IfOk result (λ line. in_stock_in copy body.now ≡ Some (string_bytes line)) }
    ensures other { IfErr result (λ fault. fault ≡ OtherForm → in_stock_in copy body.now ≡ None) }
{
    let value = value_of(alloc, body)?;
    match flag_at(&value, "in_stock") {
        Some(is_in) => Ok(stock_text(alloc, copy, is_in)?),
        None => Err(NotShown::OtherForm),
    }
}

/// Returns the number as a row's number, if it can be one.
fn row_number(number: u64) -> Option<CustomerNo>
    ensures { result ≡ row_number number }
{
    match number {
        1..=0xffff_ffff => CustomerNo::new(number as u32),
        _ => None,
    }
}

/// Returns the value as a customer's number, or `Some(None)` for nobody if the value is null.
fn customer_or_none(value: &Value) -> Option<Option<CustomerNo>>
    ensures { result ≡ customer_or_none (view value.now) }
{
    if value.is_null() {
        return Some(None);
    }
    match value.as_u64() {
        Some(number) => match row_number(number) {
            Some(customer) => Some(Some(customer)),
            None => None,
        },
        None => None,
    }
}

/// Returns who has the copy, from the body of `GET /held-by/{copy}`. `None` is nobody: the body says null.
pub fn holder(alloc: Global, body: &[u8]) -> Result<Option<CustomerNo>, NotShown>
    ensures shown { IfOk result (λ who. holder_in body.now ≡ Some who) }
    ensures other { IfErr result (λ fault. fault ≡ OtherForm → holder_in body.now ≡ None) }
{
    let value = value_of(alloc, body)?;
    let Some(customer) = value.get("customer") else {
        return Err(NotShown::OtherForm);
    };
    match customer_or_none(customer) {
        Some(who) => Ok(who),
        None => Err(NotShown::OtherForm),
    }
}

/// Returns the line on who has the copy: `customer 17 has copy 4`, or `nobody has copy 4`.
pub fn holder_line(
    alloc: Global,
    copy: CopyNo,
    customer: Option<CustomerNo>,
) -> Result<String, NotShown>
    ensures shown { IfOk result (λ line. string_bytes line ≡ holder_text copy customer) }
    ensures other { IfErr result (λ fault. ¬ (fault ≡ OtherForm)) }
{
    let copy = copy.get();
    match customer {
        Some(customer) => Ok(format!(in alloc; "customer {} has copy {copy}", customer.get())?),
        None => Ok(format!(in alloc; "nobody has copy {copy}")?),
    }
}

/// Returns `what` and the numbers, with commas between them, or `none` if there are no numbers.
pub(crate) fn counted_or(
    alloc: Global,
    none: &str,
    what: &str,
    numbers: &[u64],
) -> Result<String, AllocError>
    ensures { IfOk result (λ s. string_bytes s ≡ counted_or none.now what.now numbers.now) }
{
    if numbers.is_empty() {
        return String::from_str(alloc, none);
    }
    let numbers = plain_commas(alloc, numbers)?;
    format!(in alloc; "{what}{numbers}")
}

/// Returns the numbers of the list in the body's member of this name.
fn listed(alloc: Global, body: &[u8], name: &str) -> Result<Vec<u64>, NotShown>
    ensures shown { IfOk result (λ numbers. option_and_then (numbers_at name.now) (body_of body.now)
        ≡ Some numbers.items) }
    ensures other { IfErr result (λ fault. fault ≡ OtherForm
        → option_and_then (numbers_at name.now) (body_of body.now) ≡ None) }
{
    let value = value_of(alloc, body)?;
    numbers_at(alloc, &value, name)
}

/// Returns the line on a film's copies. `front` says what the copies are.
fn film_line(
    alloc: Global,
    front: &str,
    film: FilmNo,
    numbers: &[u64],
) -> Result<String, AllocError>
    ensures { IfOk result (λ s. string_bytes s ≡ front.now ++ copies_of_film film numbers.now) }
{
    let copies = counted_or(alloc, "none", "copies ", numbers)?;
    format!(in alloc; "{front}{}: {copies}", film.get())
}

/// Returns the line for the body of `GET /film-in-stock/{film}`: `in stock of film 1: copies 2, 3`, or
/// `in stock of film 1: none`.
pub fn film_in_stock_line(alloc: Global, film: FilmNo, body: &[u8]) -> Result<String, NotShown>
    ensures shown { IfOk result (λ line. film_in_stock_in film body.now ≡ Some (string_bytes line)) }
    ensures other { IfErr result (λ fault. fault ≡ OtherForm → film_in_stock_in film body.now ≡ None) }
{
    let numbers = listed(alloc, body, "copies")?;
    Ok(film_line(alloc, "in stock of film ", film, numbers.as_slice())?)
}

/// Returns the line for the body of `GET /film-not-in-stock/{film}`: `out of film 1: copies 2, 3`, or
/// `out of film 1: none`.
pub fn film_not_in_stock_line(alloc: Global, film: FilmNo, body: &[u8]) -> Result<String, NotShown>
    ensures shown { IfOk result (λ line. film_not_in_stock_in film body.now ≡ Some (string_bytes line)) }
    ensures other { IfErr result (λ fault. fault ≡ OtherForm → film_not_in_stock_in film body.now ≡ None) }
{
    let numbers = listed(alloc, body, "copies")?;
    Ok(film_line(alloc, "out of film ", film, numbers.as_slice())?)
}

/// Returns who owes whom so many cents.
fn balance_text(alloc: Global, name: &str, cents: i64) -> Result<String, AllocError>
    ensures { IfOk result (λ s. string_bytes s ≡ balance_text name.now cents) }
{
    if cents == 0 {
        return format!(in alloc; "{name} owes nothing");
    }
    let owed = amount(alloc, cents.unsigned_abs())?;
    if cents > 0 {
        format!(in alloc; "{name} owes {owed}")
    } else {
        format!(in alloc; "the branch owes {name} {owed}")
    }
}

/// Returns the line for the body of `GET /balance/{customer}/{at}`, for a customer of this name:
/// `MARY SMITH owes $2.00`, `the branch owes MARY SMITH $1.00`, or `MARY SMITH owes nothing`.
pub fn balance_line(alloc: Global, name: &str, body: &[u8]) -> Result<String, NotShown>
    ensures shown { IfOk result (λ line. balance_in name.now body.now ≡ Some (string_bytes line)) }
    ensures other { IfErr result (λ fault. fault ≡ OtherForm → balance_in name.now body.now ≡ None) }
{
    let value = value_of(alloc, body)?;
    match cents_at(&value, "balance") {
        Some(cents) => Ok(balance_text(alloc, name, cents)?),
        None => Err(NotShown::OtherForm),
    }
}

/// Returns the line for the body of `GET /rewards/{at}/{purchases}/{cents}`: `customers 3, 17`, or `no customers`.
pub fn rewards_line(alloc: Global, body: &[u8]) -> Result<String, NotShown>
    ensures shown { IfOk result (λ line. rewards_in body.now ≡ Some (string_bytes line)) }
    ensures other { IfErr result (λ fault. fault ≡ OtherForm → rewards_in body.now ≡ None) }
{
    let numbers = listed(alloc, body, "customers")?;
    Ok(counted_or(alloc, "no customers", "customers ", numbers.as_slice())?)
}
