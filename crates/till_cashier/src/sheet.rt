//! The branch's sheet beside the book: which copy is which film, and rentals from before the book began.

ghost use Rattle.std.specs.Prelude.{◌≡◌, Some, None, IfOk, IfSome, codes, option_map, string_bytes};
ghost use Rattle.shop_types.specs.Seen.{seen_act};
ghost use Rattle.till_requests.specs.SheetRows.{number_in_sheet, row_in_sheet};
ghost use Rattle.till_requests.specs.SheetSeen.{seen_row};
ghost use Rattle.till_cashier.specs.Returns.{IsOnSheet};
ghost use Rattle.till_cashier.specs.Saying.{IsTitleIn, IsTitleOf, title_text, due_text, weekday_text};

use crate::caches::Shelf;
use crate::clock::WallClock;
use crate::desk::Desk;
use crate::fault::TillFault;
use serde_json::Value;
use shop_types::{
    Act, Ask, BranchNo, CityNo, CopyNo, CustomerNo, FilmNo, Moment, Refusal, StaffNo,
};
use std::alloc::Global;
use till_book::HeldRental;
use till_client::Answer;
use till_requests::{SheetRow, find_number, find_row, look_request, moment_at};
use till_shows::{day_words, holder, refusal_in};
use till_work::Server;

/// The name of the file on the shelf.
const NAME: &str = "sheet";

/// The seconds of a day.
const DAY: u64 = 86_400;

/// Reads the sheet beside a book. It is empty if there is none, or if it can't be read.
pub fn read_sheet<L: Shelf>(alloc: Global, shelf: &L) -> Vec<u8> {
    match shelf.whole(alloc, NAME) {
        Some(bytes) => bytes,
        None => Vec::new(alloc),
    }
}

/// Returns the branch of a sheet's first row, if it has a row.
pub(crate) fn branch_of(sheet: &[u8]) -> Option<BranchNo> {
    let text = std::str::from_utf8(sheet).ok()?;
    let (_, rows) = text.split_once('\n')?;
    let (_, fields) = rows.split_once(',')?;
    let (branch, _) = fields.split_once(',')?;
    BranchNo::read(branch.as_bytes())
}

/// Returns the name in a sheet's line, if the line is of that kind and number. Of a line with a quoted text it is none.
fn name_in<'s>(alloc: Global, line: &'s str, kind: &str, number: u32) -> Option<&'s str> {
    if !line.starts_with(kind) || line.as_bytes().contains(&b'"') {
        return None;
    }
    let fields: Vec<&'s str> = line.split(',').collect(alloc).ok()?;
    match fields.as_slice() {
        [it, _, _, digits, _, name, ..]
            if *it == kind && digits.parse::<u32>().ok() == Some(number) => { Some(*name) }
        [..] => None,
    }
}

/// Returns the name that a sheet has of that kind and number, if it has one: `branch` is the branch's city, and `staff` a
/// member of its staff.
pub(crate) fn name_on_sheet<'s>(
    alloc: Global,
    sheet: &'s [u8],
    kind: &str,
    number: u32,
) -> Option<&'s str> {
    let text = std::str::from_utf8(sheet).ok()?;
    for line in text.lines() {
        if let Some(name) = name_in(alloc, line, kind, number) {
            return Some(name);
        }
    }
    None
}

/// Returns the number that a sheet has for the city of that name. Upper and lower case are the same. Fails with `NoCity` if
/// the sheet has none.
pub fn city_on_sheet(alloc: Global, sheet: &[u8], name: &str) -> Result<CityNo, TillFault>
    ensures { IfOk result (λ city. number_in_sheet (codes "city") name.now sheet.now ≡ Some (Some city)) }
{
    match find_number(alloc, sheet, "city", name) {
        Ok(Some(city)) => Ok(city),
        Ok(None) | Err(_) => Err(TillFault::NoCity),
    }
}

/// Returns the number that a sheet has for the member of staff of that name. Upper and lower case are the same. Fails with
/// `NoStaff` if the sheet has none.
pub fn staff_on_sheet(alloc: Global, sheet: &[u8], name: &str) -> Result<StaffNo, TillFault>
    ensures { IfOk result (λ staff. number_in_sheet (codes "staff") name.now sheet.now ≡ Some (Some staff)) }
{
    match find_number(alloc, sheet, "staff", name) {
        Ok(Some(staff)) => Ok(staff),
        Ok(None) | Err(_) => Err(TillFault::NoStaff),
    }
}

/// Returns the copy's row of the sheet, if the sheet has one.
pub(crate) fn row_of<K: WallClock, V: Server, L: Shelf>(
    desk: &Desk<'_, K, V, L>,
    copy: CopyNo,
) -> Option<SheetRow>
    ensures { IfSome result (λ row. row_in_sheet copy desk.now.sheet.now ≡ Some (Some (seen_row row))) }
{
    match find_row(desk.alloc, desk.sheet, copy) {
        Ok(Some(row)) => Some(row),
        Ok(None) | Err(_) => None,
    }
}

/// Returns the server's answer to a look, if there is one.
fn looked<K: WallClock, V: Server, L: Shelf>(
    desk: &Desk<'_, K, V, L>,
    ask: &Ask,
) -> Option<Answer> {
    let request = look_request(desk.alloc, desk.routes, &desk.settings.token, ask).ok()?;
    desk.ask(request.as_slice()).ok()
}

/// Who has a copy, as the server says.
#[derive(Clone, Copy)]
enum Holder {
    /// The server didn't say.
    Unknown,
    Nobody,
    Customer(CustomerNo),
}

/// Asks the server which customer has the copy.
fn holder_of<K: WallClock, V: Server, L: Shelf>(desk: &Desk<'_, K, V, L>, copy: CopyNo) -> Holder {
    let Some(answer) = looked(desk, &Ask::HeldBy(copy)) else {
        return Holder::Unknown;
    };
    let body = answer.body.as_slice();
    if answer.status == 200 {
        return match holder(desk.alloc, body) {
            Ok(Some(customer)) => Holder::Customer(customer),
            Ok(None) => Holder::Nobody,
            Err(_) => Holder::Unknown,
        };
    }
    match refusal_in(answer.status, body) {
        Some(Refusal::NoCopy) => Holder::Nobody,
        Some(_) | None => Holder::Unknown,
    }
}

/// Returns the rental that a row has, with its customer.
fn rental_in(row: &SheetRow) -> Option<HeldRental>
    ensures rental { IfSome result (λ held. row.now.rental ≡ Some held.rental) }
    ensures customer { IfSome result (λ held. row.now.customer ≡ Some held.customer) }
{
    match (row.rental, row.customer) {
        (Some(rental), Some(customer)) => Some(HeldRental { rental, customer }),
        (Some(_), None) | (None, Some(_)) | (None, None) => None,
    }
}

/// Returns the rental that the sheet's row of a copy has, if that customer is its own.
pub(crate) fn rental_of<K: WallClock, V: Server, L: Shelf>(
    desk: &Desk<'_, K, V, L>,
    copy: CopyNo,
    customer: CustomerNo,
) -> Result<HeldRental, TillFault>
    ensures sheet { IfOk result (IsOnSheet desk.now.sheet.now copy) }
    ensures customer { IfOk result (λ held. held.customer ≡ customer) }
{
    let Some(row) = row_of(desk, copy) else {
        return Err(TillFault::NoRental);
    };
    match rental_in(&row) {
        Some(held) if held.customer.get() == customer.get() => Ok(held),
        Some(_) | None => Err(TillFault::NoRental),
    }
}

/// Returns the rental that the sheet has of a copy, if the server says that its customer still has the copy. Fails with
/// `NotOut` if the server says that nobody has the copy, and with `NoRental` otherwise.
pub(crate) fn rental_on_sheet<K: WallClock, V: Server, L: Shelf>(
    desk: &Desk<'_, K, V, L>,
    copy: CopyNo,
) -> Result<HeldRental, TillFault>
    ensures { IfOk result (IsOnSheet desk.now.sheet.now copy) }
{
    match holder_of(desk, copy) {
        Holder::Customer(customer) => rental_of(desk, copy, customer),
        Holder::Nobody => Err(TillFault::NotOut),
        Holder::Unknown => Err(TillFault::NoRental),
    }
}

/// What is known of the film of a rent, and the rental's last day.
#[derive(Drop)]
pub(crate) struct Rented {
    pub(crate) title: Option<String>,
    pub(crate) due: Option<Moment>,
}

/// Asks the server for how many days a film is rented out.
fn period_of<K: WallClock, V: Server, L: Shelf>(
    desk: &Desk<'_, K, V, L>,
    film: FilmNo,
) -> Option<u64> {
    let answer = looked(desk, &Ask::Film(film))?;
    match Value::from_slice(desk.alloc, answer.body.as_slice()) {
        Ok(body) => body.get("period")?.as_u64(),
        Err(_) => None,
    }
}

/// Returns the last day of a film's rental that begins at that moment.
fn due_of<K: WallClock, V: Server, L: Shelf>(
    desk: &Desk<'_, K, V, L>,
    film: Option<FilmNo>,
    at: &Option<Moment>,
) -> Option<Moment> {
    let (Some(film), Some(at)) = (film, at) else {
        return None;
    };
    let days = period_of(desk, film)?;
    moment_at(at.seconds().saturating_add(days.saturating_mul(DAY)))
}

/// Returns what is known of a copy's film, and of the last day of its rental that begins at that moment. Without a sheet
/// nothing is asked.
fn about_copy<K: WallClock, V: Server, L: Shelf>(
    desk: &Desk<'_, K, V, L>,
    copy: CopyNo,
    at: &Option<Moment>,
) -> Rented
    ensures { IsTitleOf desk.now.sheet.now copy (option_map string_bytes result.title) }
{
    match row_of(desk, copy) {
        Some(row) => Rented {
            due: due_of(desk, row.film, at),
            title: Some(row.title),
        },
        None => Rented::nothing(),
    }
}

/// Returns what is known of a rent's film, and of its last day. Of another act it is nothing.
pub(crate) fn about_rent<K: WallClock, V: Server, L: Shelf>(
    desk: &Desk<'_, K, V, L>,
    act: &Act,
    at: &Option<Moment>,
) -> Rented
    ensures { IsTitleIn desk.now.sheet.now (seen_act act.now) (option_map string_bytes result.title) }
{
    match act {
        Act::Rent { copy, .. } => about_copy(desk, *copy, at),
        Act::Customer(_) | Act::Active { .. } | Act::TakeBack(_) | Act::Pay { .. } => {
            Rented::nothing()
        }
        Act::Import { .. } | Act::Dispatch { .. } | Act::Receive { .. } | Act::Scrap(_) => {
            Rented::nothing()
        }
    }
}

/// Returns the name of the moment's day of the week.
fn weekday(at: Moment) -> &'static str
    ensures { result.now ≡ weekday_text at }
{
    match at.seconds() / DAY % 7 {
        0 => "Thursday",
        1 => "Friday",
        2 => "Saturday",
        3 => "Sunday",
        4 => "Monday",
        5 => "Tuesday",
        _ => "Wednesday",
    }
}

impl Rented {
    /// Returns that nothing is known.
    pub(crate) fn nothing() -> Rented
        ensures title { result.title ≡ None }
        ensures due { result.due ≡ None }
    {
        Rented {
            title: None,
            due: None,
        }
    }

    /// Returns the title for a rent's line: ` (RIVER DAWN)`, or nothing.
    pub(crate) fn title_text(&self, alloc: Global) -> Result<String, TillFault>
        ensures { IfOk result (λ text. string_bytes text ≡ title_text (option_map string_bytes self.now.title)) }
    {
        match &self.title {
            Some(title) => Ok(format!(in alloc; " ({title})")?),
            None => Ok(String::new(alloc)),
        }
    }

    /// Returns the last day for a rent's line: `, due Thursday 12 March 2026`, or nothing.
    pub(crate) fn due_text(&self, alloc: Global) -> Result<String, TillFault>
        ensures { IfOk result (λ text. string_bytes text ≡ due_text self.now.due) }
    {
        match self.due {
            Some(due) => {
                let (weekday, day) = (weekday(due), day_words(alloc, due)?);
                Ok(format!(in alloc; ", due {weekday} {day}")?)
            }
            None => Ok(String::new(alloc)),
        }
    }
}
