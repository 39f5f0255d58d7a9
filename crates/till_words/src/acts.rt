ghost use Rattle.std.specs.Prelude.{◌≡◌, IfOk, IfErr, map, option_map, string_bytes, codes};
ghost use Rattle.till_words.specs.Given.{row_given};
ghost use Rattle.word_tables.specs.Given.{values_of, Reads};
ghost use Rattle.till_words.specs.Acts as spec;
ghost use Rattle.till_words.specs.Places as places;
ghost use Rattle.till_words.specs.declared.words.TillLook.TheVariants as look;

use crate::given::{NUMBER, PAYMENT, RETURN, TOKEN, WHOSE, ZONE};
use crate::words::{Beginning, PersonIn, TillAct, TillLook, WordList, ZoneText};
use crate::{days, given, named};
use clap::ArgMatches;
use shop_types::{
    Act, CityNo, CopyNo, L45, NewCustomer, Person, RentalNo, RowNumber, StaffNo, T45, T128, Usage,
};
use std::alloc::Global;

// ---- at the counter

fn rent(given: &ArgMatches<'_>) -> Option<Act>
    ensures { result ≡ spec.rent_of (values_of given.now) }
{
    Some(Act::Rent {
        customer: given::row(given, "customer")?,
        copy: given::row(given, "copy")?,
    })
}

/// Returns the return of a copy or of a rental. Finds none if both are given, or neither.
fn one_return(copy: Option<CopyNo>, rental: Option<RentalNo>) -> Option<TillAct>
    ensures { result ≡ spec.one_return copy rental }
{
    match (copy, rental) {
        (Some(copy), None) => Some(TillAct::ReturnCopy(copy)),
        (None, Some(rental)) => Some(TillAct::Do(Act::TakeBack(rental))),
        _ => None,
    }
}

fn returned(given: &ArgMatches<'_>) -> Option<TillAct>
    ensures { result ≡ spec.return_of (values_of given.now) }
{
    let copy = given::optional_row(given, "copy")?;
    let rental = given::optional_row(given, "rental")?;
    one_return(copy, rental)
}

fn pay(given: &ArgMatches<'_>) -> Option<Act>
    ensures { result ≡ spec.pay_of (values_of given.now) }
{
    let customer = given::row(given, "customer")?;
    let amount = given::amount(given)?;
    let rental = given::optional_row(given, "rental")?;
    Some(Act::Pay {
        customer,
        rental,
        amount,
    })
}

/// A customer's names.
#[derive(Drop)]
struct Names {
    first: T45,
    last: T45,
}

fn name_details(alloc: Global, given: &ArgMatches<'_>) -> Result<Names, Usage>
    ensures { Reads result (spec.names_of (values_of given.now)) }
{
    Ok(Names {
        first: given::text(alloc, given, "first")?,
        last: given::text(alloc, given, "last")?,
    })
}

/// A customer's address, postal code and phone number.
#[derive(Drop)]
struct Contact {
    address: T128,
    postal: L45,
    phone: L45,
}

fn contact_details(alloc: Global, given: &ArgMatches<'_>) -> Result<Contact, Usage>
    ensures { Reads result (spec.contact_of (values_of given.now)) }
{
    Ok(Contact {
        address: given::text(alloc, given, "address")?,
        postal: given::text(alloc, given, "postal")?,
        phone: given::text(alloc, given, "phone")?,
    })
}

/// Returns who joins in the city of that number.
fn person(alloc: Global, given: &ArgMatches<'_>, city: CityNo) -> Result<Person, Usage>
    ensures { Reads result (spec.person_of city (values_of given.now)) }
{
    let names = name_details(alloc, given)?;
    let contact = contact_details(alloc, given)?;
    Ok(Person {
        first: names.first,
        last: names.last,
        address: contact.address,
        postal: contact.postal,
        phone: contact.phone,
        city,
    })
}

/// Returns who joins in a city that is named.
fn person_in(alloc: Global, given: &ArgMatches<'_>) -> Result<PersonIn, Usage>
    ensures { Reads result (spec.person_in (values_of given.now)) }
{
    let city = given::text(alloc, given, "city")?;
    let names = name_details(alloc, given)?;
    let contact = contact_details(alloc, given)?;
    Ok(PersonIn {
        first: names.first,
        last: names.last,
        address: contact.address,
        postal: contact.postal,
        phone: contact.phone,
        city,
    })
}

/// Returns what the word `join` asks for. A city that isn't written as a number is a name.
fn joined(alloc: Global, given: &ArgMatches<'_>) -> Result<TillAct, Usage>
    ensures { Reads result (spec.join_of (values_of given.now)) }
{
    match given::row(given, "city") {
        Some(city) => Ok(TillAct::Do(Act::Customer(NewCustomer {
            person: person(alloc, given, city)?,
        }))),
        None => Ok(TillAct::JoinIn(person_in(alloc, given)?)),
    }
}

fn active(given: &ArgMatches<'_>, active: bool) -> Option<Act>
    ensures { result ≡ spec.active_of active (values_of given.now) }
{
    Some(Act::Active {
        customer: given::row(given, "customer")?,
        active,
    })
}

// ---- the stock

fn import(alloc: Global, given: &ArgMatches<'_>) -> Result<TillAct, Usage>
    ensures { Reads result (spec.import_of (values_of given.now)) }
{
    Ok(TillAct::Import {
        file: given::text(alloc, given, "file")?,
        lot: given::lot(alloc, given)?,
    })
}

fn dispatch(alloc: Global, given: &ArgMatches<'_>) -> Result<Act, Usage>
    ensures { Reads result (spec.dispatch_of (values_of given.now)) }
{
    Ok(Act::Dispatch {
        to: given::of_kind(alloc, given::row(given, "to"), NUMBER)?,
        copies: given::numbers(alloc, given, "copies")?,
    })
}

fn receive(alloc: Global, given: &ArgMatches<'_>) -> Result<Act, Usage>
    ensures { Reads result (spec.receive_of (values_of given.now)) }
{
    Ok(Act::Receive {
        from: given::of_kind(alloc, given::row(given, "from"), NUMBER)?,
        number: given::of_kind(alloc, given::row(given, "number"), NUMBER)?,
        missing: given::any_numbers(alloc, given, "missing")?,
    })
}

fn scrap(given: &ArgMatches<'_>) -> Option<TillAct>
    ensures { result
        ≡ option_map (λ copy. TillAct.Do (Act.Scrap copy)) (row_given (codes "copy") (values_of given.now)) }
{
    Some(TillAct::Do(Act::Scrap(given::row(given, "copy")?)))
}

// ---- looks

/// Returns the look for the customer with the given number, or for the customers with the given text.
fn customer(alloc: Global, given: &ArgMatches<'_>) -> Result<TillLook, Usage>
    ensures { Reads result (spec.find_of look.Customer look.Customers (values_of given.now)) }
{
    match given::row(given, "find") {
        Some(number) => Ok(TillLook::Customer(number)),
        None => Ok(TillLook::Customers(given::text(alloc, given, "find")?)),
    }
}

/// Returns the look for the film with the given number, or for the films with the given text.
fn film(alloc: Global, given: &ArgMatches<'_>) -> Result<TillLook, Usage>
    ensures { Reads result (spec.find_of look.Film look.Films (values_of given.now)) }
{
    match given::row(given, "find") {
        Some(number) => Ok(TillLook::Film(number)),
        None => Ok(TillLook::Films(given::text(alloc, given, "find")?)),
    }
}

/// Returns a number from 1 on that isn't a row's number.
fn count(given: &ArgMatches<'_>, id: &str) -> Option<u32>
    ensures { result ≡ row_given id.now (values_of given.now) }
{
    let number: RowNumber<0> = given::row(given, id)?;
    Some(number.get())
}

fn rewards(given: &ArgMatches<'_>) -> Option<TillLook>
    ensures { result ≡ spec.rewards_of (values_of given.now) }
{
    Some(TillLook::Rewards {
        purchases: count(given, "purchases")?,
        cents: given::amount(given)?.get(),
    })
}

/// Returns the look for a word of this name, if it shows a list.
fn list_look(name: &str, given: &ArgMatches<'_>) -> Option<TillLook>
    ensures { result ≡ spec.list_look_of name.now (values_of given.now) }
{
    match name {
        "overdue" => Some(TillLook::Overdue),
        "arrivals" => Some(TillLook::Arrivals),
        "sent" => Some(TillLook::Sent),
        "rewards" => rewards(given),
        "sales" => Some(TillLook::Sales),
        _ => None,
    }
}

/// Returns the look for a word of this name, for one row or a list.
fn row_look(name: &str, given: &ArgMatches<'_>) -> Option<TillLook>
    ensures { result ≡ spec.row_look_of name.now (values_of given.now) }
{
    match name {
        "in-stock" => Some(TillLook::InStock(given::row(given, "copy")?)),
        "held-by" => Some(TillLook::HeldBy(given::row(given, "copy")?)),
        "copies" => Some(TillLook::Copies(given::row(given, "film")?)),
        "balance" => Some(TillLook::Balance(given::row(given, "customer")?)),
        _ => list_look(name, given),
    }
}

fn look(alloc: Global, name: &str, given: &ArgMatches<'_>) -> Result<TillLook, Usage>
    ensures { Reads result (spec.look_of name.now (values_of given.now)) }
{
    match name {
        "customer" => customer(alloc, given),
        "film" => film(alloc, given),
        _ => given::of_kind(alloc, row_look(name, given), NUMBER),
    }
}

// ---- the till itself

/// Whose a book is, and its zone.
#[derive(Drop)]
struct Owner {
    staff: Option<StaffNo>,
    zone: Option<ZoneText>,
}

/// Returns the member of staff, or `Some(None)` for head office. Finds none if both are given, or neither.
fn whose(staff: Option<StaffNo>, is_office: bool) -> Option<Option<StaffNo>>
    ensures { result ≡ spec.whose staff is_office }
{
    match (staff, is_office) {
        (Some(staff), false) => Some(Some(staff)),
        (None, true) => Some(None),
        _ => None,
    }
}

fn whose_book(given: &ArgMatches<'_>) -> Option<Option<StaffNo>>
    ensures { result ≡ spec.whose_of (values_of given.now) }
{
    let staff = given::optional_row(given, "staff")?;
    whose(staff, given::flag(given, "office"))
}

/// Returns whose a book is, with its zone. A member of staff's book must have a zone: finds none if it has none.
fn zoned(staff: Option<StaffNo>, zone: Option<ZoneText>) -> Option<Owner>
    ensures { result ≡ spec.zoned staff zone }
{
    if staff.is_some() && zone.is_none() {
        return None;
    }
    Some(Owner { staff, zone })
}

/// Returns whose a book is, and its zone.
fn owner_given(alloc: Global, given: &ArgMatches<'_>) -> Result<Owner, Usage>
    ensures { Reads result (spec.owner_of (values_of given.now)) }
{
    let staff = given::of_kind(alloc, whose_book(given), WHOSE)?;
    let zone = given::optional_text(alloc, given, "zone")?;
    given::of_kind(alloc, zoned(staff, zone), ZONE)
}

fn beginning(alloc: Global, given: &ArgMatches<'_>) -> Result<Beginning, Usage>
    ensures { Reads result (spec.beginning_of (values_of given.now)) }
{
    let token = given::of_kind(alloc, given::token(given), TOKEN)?;
    let owner = owner_given(alloc, given)?;
    Ok(Beginning {
        address: given::text(alloc, given, "address")?,
        token,
        staff: owner.staff,
        zone: owner.zone,
    })
}

/// Returns the words for head office, after the word `office`.
fn office(alloc: Global, words: &[String]) -> Result<TillAct, Usage>
    ensures ok { IfOk result (λ it. it ≡ TillAct.Office (places.office_words (map string_bytes words.now))) }
    ensures memory { IfErr result (λ e. e ≡ Usage.Memory) }
{
    match named::office_words(alloc, words) {
        Ok(copies) => Ok(TillAct::Office(WordList::new(copies))),
        Err(_) => Err(Usage::Memory),
    }
}

// ---- by their names

/// Returns what a word of this name does to the stock, or looks up.
fn stock_act(alloc: Global, name: &str, given: &ArgMatches<'_>) -> Result<TillAct, Usage>
    ensures { Reads result (spec.stock_act_of name.now (values_of given.now)) }
{
    match name {
        "import" => import(alloc, given),
        "dispatch" => Ok(TillAct::Do(dispatch(alloc, given)?)),
        "receive" => Ok(TillAct::Do(receive(alloc, given)?)),
        "scrap" => given::of_kind(alloc, scrap(given), NUMBER),
        _ => Ok(TillAct::Look(look(alloc, name, given)?)),
    }
}

/// Returns what a word of this name does at the counter or to the stock, or looks up.
fn counter_act(alloc: Global, name: &str, given: &ArgMatches<'_>) -> Result<TillAct, Usage>
    ensures { Reads result (spec.counter_act_of name.now (values_of given.now)) }
{
    match name {
        "rent" => Ok(TillAct::Do(given::of_kind(alloc, rent(given), NUMBER)?)),
        "return" => given::of_kind(alloc, returned(given), RETURN),
        "pay" => Ok(TillAct::Do(given::of_kind(alloc, pay(given), PAYMENT)?)),
        "join" => joined(alloc, given),
        "bar" => Ok(TillAct::Do(given::of_kind(alloc, active(given, false), NUMBER)?)),
        "unbar" => Ok(TillAct::Do(given::of_kind(alloc, active(given, true), NUMBER)?)),
        _ => stock_act(alloc, name, given),
    }
}

/// Returns what the subcommand of this name asks for. `words` are all words of the line.
pub(crate) fn act(
    alloc: Global,
    words: &[String],
    name: &str,
    given: &ArgMatches<'_>,
) -> Result<TillAct, Usage>
    ensures { Reads result (spec.act_of (places.office_words (map string_bytes words.now)) name.now
        (values_of given.now)) }
{
    match name {
        "waiting" => Ok(TillAct::Waiting),
        "send" => Ok(TillAct::Send),
        "last" => Ok(TillAct::Last(given::of_kind(alloc, count(given, "count"), NUMBER)?)),
        "day" => Ok(TillAct::Day(days::drawer(alloc, given)?)),
        "today" => Ok(TillAct::Today(given::text(alloc, given, "date")?)),
        "again" => Ok(TillAct::Again {
            late: given::flag(given, "late"),
        }),
        "slip" => Ok(TillAct::Slip),
        "help" => Ok(TillAct::Help),
        "init" => Ok(TillAct::Init(beginning(alloc, given)?)),
        "zone" => Ok(TillAct::Zone(given::text(alloc, given, "name")?)),
        "office" => office(alloc, words),
        _ => counter_act(alloc, name, given),
    }
}
