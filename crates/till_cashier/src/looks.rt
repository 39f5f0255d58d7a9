//! What is looked up, and changes nothing.

ghost use Rattle.std.specs.Prelude.{◌≡◌, ◌++◌, false, IfOk, IfSome, OnOk, string_bytes};
ghost use Rattle.sqlite.specs.Held.{state};
ghost use Rattle.sqlite.specs.State.{HasCleanDisk};
ghost use Rattle.shop_model.specs.Values.{OneView};
ghost use Rattle.shop_types.specs.Seen.{seen_ask, seen_view};
ghost use Rattle.till_book.specs.Steps.{Stays};
ghost use Rattle.till_requests.specs.Zones.{offset_of};
ghost use Rattle.till_client.specs.Replies.{seen_answer};
ghost use Rattle.till_shows.specs.Sheets.{IsCustomerSheet};
ghost use Rattle.till_cashier.specs.Asking.{IsAnswered, IsLookedUp};
ghost use Rattle.till_cashier.specs.Clock.{local_clock};
ghost use Rattle.till_cashier.specs.Looking.{Adds, SaysLooked, status_with};
ghost use Rattle.till_cashier.specs.Looking.{AddsCopies, AddsCustomer, AddsLook, AddsOwed, AddsRewards, AddsSales, AddsTitle, AddsView, age_text, none_text, table_or};
ghost use Rattle.till_cashier.specs.Looking.{IsByPhone, IsListOf, IsNamed, PrintsLook, ShowsFound, ShowsLines, ShowsList, ShowsSales};
ghost use Rattle.till_cashier.specs.Today.{IsOnWall};

use crate::answers::{says_all, says_lines, says_list, says_sales, says_table};
use crate::book::Book;
use crate::caches::Shelf;
use crate::clock::WallClock;
use crate::commands::called;
use crate::desk::Desk;
use crate::fault::TillFault;
use crate::lists::{List, Picked, found, title_of};
use crate::overdue::overdue;
use crate::said::Said;
use crate::stock::where_is;
use shop_types::{Ask, CustomerNo, FilmNo, Moment, Refusal, View};
use sqlite::{Alter, Connection};
use std::alloc::Global;
use till_client::Answer;
use till_requests::{look_request, view_request};
use till_shows::{Table, customer_sheet, refusal_in};
use till_words::TillLook;
use till_work::Server;

/// Below this a number is too short to be looked for in telephone numbers.
const SHORT: u32 = 100;

/// Returns the answer to a look.
pub(crate) fn looked<K: WallClock, V: Server, L: Shelf>(
    desk: &Desk<'_, K, V, L>,
    ask: &Ask,
) -> Result<Answer, TillFault>
    ensures { IfOk result (λ answer. IsLookedUp
        (IsAnswered (V.opens desk.now.server.now) V.Reader.remaining V.Writer.contents)
        desk.now.settings.now.token (seen_ask ask.now) (seen_answer answer)) }
{
    let request = look_request(desk.alloc, desk.routes, &desk.settings.token, ask)?;
    desk.ask(request.as_slice())
}

/// Returns the answer to a view.
fn viewed<K: WallClock, V: Server, L: Shelf>(
    desk: &Desk<'_, K, V, L>,
    view: View,
) -> Result<Answer, TillFault>
    ensures { IfOk result (λ answer. IsLookedUp
        (IsAnswered (V.opens desk.now.server.now) V.Reader.remaining V.Writer.contents)
        desk.now.settings.now.token (OneView (seen_view view)) (seen_answer answer)) }
{
    let request = view_request(desk.alloc, desk.routes, &desk.settings.token, view)?;
    desk.ask(request.as_slice())
}

/// Says the table of what is asked for, or that nothing is in it.
fn table_look<K: WallClock, V: Server, L: Shelf>(
    desk: &Desk<'_, K, V, L>,
    ask: &Ask,
    none: &str,
    said: &mut Said,
) -> Result<(), TillFault>
    ensures { OnOk result (AddsLook (IsLookedUp
        (IsAnswered (V.opens desk.now.server.now) V.Reader.remaining V.Writer.contents)
        desk.now.settings.now.token (seen_ask ask.now)) desk.now.is_json
        (ShowsList (seen_ask ask.now) none.now) (string_bytes said.old.text)
        said.old.status (string_bytes said.new.text) said.new.status) }
{
    let answer = looked(desk, ask)?;
    if says_all(desk.alloc, desk.is_json, &answer, said)? {
        return Ok(());
    }
    says_list(desk.alloc, ask, answer.body.as_slice(), none, said)
}

/// Returns the name of the customer whose balance is asked for, or an empty name for another look.
fn name_in<K: WallClock, V: Server, L: Shelf>(
    desk: &Desk<'_, K, V, L>,
    ask: &Ask,
) -> Result<String, TillFault>
    ensures { IfOk result (λ name. IsNamed (seen_ask ask.now) (string_bytes name)) }
{
    if let Ask::Balance { customer, .. } = ask {
        return called(desk, *customer);
    }
    Ok(String::new(desk.alloc))
}

/// Says what is asked for of one thing, as lines.
pub(crate) fn line_look<K: WallClock, V: Server, L: Shelf>(
    desk: &Desk<'_, K, V, L>,
    ask: &Ask,
    said: &mut Said,
) -> Result<(), TillFault>
    ensures { OnOk result (AddsLook (IsLookedUp
        (IsAnswered (V.opens desk.now.server.now) V.Reader.remaining V.Writer.contents)
        desk.now.settings.now.token (seen_ask ask.now)) desk.now.is_json
        (ShowsLines (seen_ask ask.now)) (string_bytes said.old.text)
        said.old.status (string_bytes said.new.text) said.new.status) }
{
    let answer = looked(desk, ask)?;
    if says_all(desk.alloc, desk.is_json, &answer, said)? {
        return Ok(());
    }
    let name = name_in(desk, ask)?;
    says_lines(desk.alloc, ask, name.as_str(), answer.body.as_slice(), said)
}

/// Says the film's title, if it is known. With `--json` it says nothing.
fn says_title<K: WallClock, V: Server, L: Shelf>(
    desk: &Desk<'_, K, V, L>,
    film: FilmNo,
    said: &mut Said,
) -> Result<(), TillFault>
    ensures said { OnOk result (AddsTitle desk.now.is_json film (string_bytes said.old.text)
        (string_bytes said.new.text)) }
    ensures status { said.new.status ≡ said.old.status }
{
    if desk.is_json {
        return Ok(());
    }
    if let Ok(Some(title)) = title_of(desk, film) {
        said.line(title.as_str())?;
    }
    Ok(())
}

/// Says the film's title, and its copies in stock and out.
fn copies<K: WallClock, V: Server, L: Shelf>(
    desk: &Desk<'_, K, V, L>,
    film: FilmNo,
    said: &mut Said,
) -> Result<(), TillFault>
    ensures { OnOk result (AddsCopies (IsLookedUp
        (IsAnswered (V.opens desk.now.server.now) V.Reader.remaining V.Writer.contents)
        desk.now.settings.now.token) desk.now.is_json film (string_bytes said.old.text)
        said.old.status (string_bytes said.new.text) said.new.status) }
{
    says_title(desk, film, said)?;
    line_look(desk, &Ask::FilmInStock(film), said)?;
    if said.status == 0 {
        line_look(desk, &Ask::FilmNotInStock(film), said)?;
    }
    Ok(())
}

/// Says what customers paid for rentals, in all or by category.
fn sales_by<K: WallClock, V: Server, L: Shelf>(
    desk: &Desk<'_, K, V, L>,
    view: View,
    said: &mut Said,
) -> Result<(), TillFault>
    ensures { OnOk result (AddsLook (IsLookedUp
        (IsAnswered (V.opens desk.now.server.now) V.Reader.remaining V.Writer.contents)
        desk.now.settings.now.token (OneView (seen_view view))) desk.now.is_json
        (ShowsSales (seen_view view)) (string_bytes said.old.text)
        said.old.status (string_bytes said.new.text) said.new.status) }
{
    let answer = viewed(desk, view)?;
    if says_all(desk.alloc, desk.is_json, &answer, said)? {
        return Ok(());
    }
    says_sales(desk.alloc, view, answer.body.as_slice(), said)
}

/// Says which customers or films have a part in their texts. With `--json` it says the whole list.
fn search<K: WallClock, V: Server, L: Shelf>(
    desk: &Desk<'_, K, V, L>,
    list: List,
    part: &str,
    said: &mut Said,
) -> Result<(), TillFault>
    ensures { OnOk result (AddsLook (IsListOf (IsLookedUp
        (IsAnswered (V.opens desk.now.server.now) V.Reader.remaining V.Writer.contents)
        desk.now.settings.now.token) list) desk.now.is_json
        (ShowsFound list part.now) (string_bytes said.old.text)
        said.old.status (string_bytes said.new.text) said.new.status) }
{
    let Picked {
        answer,
        table,
        minutes,
    } = found(desk, list, part)?;
    if says_all(desk.alloc, desk.is_json, &answer, said)? {
        return Ok(());
    }
    let Some(table) = table else {
        return Err(TillFault::Foreign);
    };
    says_rows(desk.alloc, list, &table, minutes, said)
}

/// Says the rows of a list that were found, and how old the list is.
fn says_rows(
    alloc: Global,
    list: List,
    table: &Table,
    minutes: u64,
    said: &mut Said,
) -> Result<(), TillFault>
    ensures said { OnOk result (string_bytes said.new.text ≡ string_bytes said.old.text
        ++ (table_or (none_text list) table.now ++ age_text minutes)) }
    ensures status { said.new.status ≡ said.old.status }
{
    says_table(alloc, table, list.none(), said)?;
    says_age(alloc, minutes, said)
}

/// Says how old a kept list is, if that is a minute or more.
fn says_age(alloc: Global, minutes: u64, said: &mut Said) -> Result<(), TillFault>
    ensures said { OnOk result (string_bytes said.new.text ≡ string_bytes said.old.text ++ age_text minutes) }
    ensures status { said.new.status ≡ said.old.status }
{
    if minutes == 1 {
        said.line("This list is 1 minute old.")?;
    } else if minutes > 1 {
        let line = format!(in alloc; "This list is {minutes} minutes old.")?;
        said.line(line.as_str())?;
    }
    Ok(())
}

/// Returns the customers with the number in their telephone number, if there are some. The number isn't short, and is no
/// customer's of the branch.
fn with_phone<K: WallClock, V: Server, L: Shelf>(
    desk: &Desk<'_, K, V, L>,
    customer: CustomerNo,
    answer: &Answer,
) -> Result<Option<Table>, TillFault>
    ensures { IfOk result (λ it. IfSome it (IsByPhone desk.now.is_json customer (seen_answer answer.now))) }
{
    let refusal = refusal_in(answer.status, answer.body.as_slice());
    if desk.is_json || customer.get() < SHORT || !matches!(refusal, Some(Refusal::NoCustomer)) {
        return Ok(None);
    }
    let alloc = desk.alloc;
    let digits = format!(in alloc; "{}", customer.get())?;
    let Picked { table, .. } = found(desk, List::Customers, digits.as_str())?;
    let Some(table) = table else {
        return Ok(None);
    };
    if table.is_empty() {
        return Ok(None);
    }
    Ok(Some(table))
}

/// Says the customer's sheet, or a refusal, or with `--json` the body as it is.
fn says_customer<K: WallClock, V: Server, L: Shelf>(
    desk: &Desk<'_, K, V, L>,
    answer: &Answer,
    said: &mut Said,
) -> Result<(), TillFault>
    ensures said { OnOk result (Adds (SaysLooked desk.now.is_json IsCustomerSheet (seen_answer answer.now))
        (string_bytes said.old.text) (string_bytes said.new.text)) }
    ensures status { OnOk result (said.new.status ≡ status_with (seen_answer answer.now) said.old.status) }
{
    if says_all(desk.alloc, desk.is_json, answer, said)? {
        return Ok(());
    }
    let sheet = customer_sheet(desk.alloc, answer.body.as_slice())?;
    said.text.push_str(sheet.as_str())?;
    Ok(())
}

/// Says the customer of a number, or those with the number in their telephone number.
fn customer_look<K: WallClock, V: Server, L: Shelf>(
    desk: &Desk<'_, K, V, L>,
    customer: CustomerNo,
    said: &mut Said,
) -> Result<(), TillFault>
    ensures { OnOk result (AddsCustomer (IsLookedUp
        (IsAnswered (V.opens desk.now.server.now) V.Reader.remaining V.Writer.contents)
        desk.now.settings.now.token) desk.now.is_json customer (string_bytes said.old.text)
        said.old.status (string_bytes said.new.text) said.new.status) }
{
    let answer = looked(desk, &Ask::Customer(customer))?;
    match with_phone(desk, customer, &answer)? {
        Some(table) => says_table(desk.alloc, &table, "", said),
        None => says_customer(desk, &answer, said),
    }
}

/// Says what customers paid for rentals, in all and then by category.
fn sales<K: WallClock, V: Server, L: Shelf>(
    desk: &Desk<'_, K, V, L>,
    said: &mut Said,
) -> Result<(), TillFault>
    ensures { OnOk result (AddsSales (IsLookedUp
        (IsAnswered (V.opens desk.now.server.now) V.Reader.remaining V.Writer.contents)
        desk.now.settings.now.token) desk.now.is_json (string_bytes said.old.text)
        said.old.status (string_bytes said.new.text) said.new.status) }
{
    sales_by(desk, View::SalesByStore, said)?;
    sales_by(desk, View::SalesByFilmCategory, said)
}

/// Says what a customer owes now, or at the last entry's moment if that is later.
fn balance<K: WallClock, V: Server, L: Shelf>(
    desk: &Desk<'_, K, V, L>,
    customer: CustomerNo,
    last: Option<Moment>,
    said: &mut Said,
) -> Result<(), TillFault>
    ensures { OnOk result (AddsOwed (IsLookedUp
        (IsAnswered (V.opens desk.now.server.now) V.Reader.remaining V.Writer.contents)
        desk.now.settings.now.token)
        (local_clock (K.shows desk.now.clock.now) desk.now.settings.now.zone) last desk.now.is_json customer
        (string_bytes said.old.text)
        said.old.status (string_bytes said.new.text) said.new.status) }
{
    let at = desk.now_behind(last)?;
    line_look(desk, &Ask::Balance { customer, at }, said)
}

/// Says which customers paid more often, and more, than that in the month before.
fn rewards<K: WallClock, V: Server, L: Shelf>(
    desk: &Desk<'_, K, V, L>,
    purchases: u32,
    cents: u32,
    said: &mut Said,
) -> Result<(), TillFault>
    ensures { OnOk result (AddsRewards (IsLookedUp
        (IsAnswered (V.opens desk.now.server.now) V.Reader.remaining V.Writer.contents)
        desk.now.settings.now.token)
        (local_clock (K.shows desk.now.clock.now) desk.now.settings.now.zone) desk.now.is_json purchases cents
        (string_bytes said.old.text)
        said.old.status (string_bytes said.new.text) said.new.status) }
{
    let ask = Ask::Rewards {
        at: desk.now()?,
        purchases,
        cents,
    };
    line_look(desk, &ask, said)
}

/// Looks, and puts what is said of it. The book stays.
fn put_look<S: Alter, K: WallClock, V: Server, L: Shelf>(
    desk: &Desk<'_, K, V, L>,
    conn: &mut Connection<S>,
    book: &Book,
    look: &TillLook,
    said: &mut Said,
) -> Result<(), TillFault>
    requires { conn.old.in_transaction ≡ false }
    ensures ended { conn.new.in_transaction ≡ false }
    ensures clean { HasCleanDisk (state S.Store conn.new) → HasCleanDisk (state S.Store conn.old) }
    ensures stays { HasCleanDisk (state S.Store conn.new) → Stays (state S.Store conn.old) (state S.Store conn.new) }
    ensures says { HasCleanDisk (state S.Store conn.new) → OnOk result (AddsView (IsLookedUp
        (IsAnswered (V.opens desk.now.server.now) V.Reader.remaining V.Writer.contents)
        desk.now.settings.now.token) (IsOnWall desk.now.wall (offset_of desk.now.settings.now.zone))
        (state S.Store conn.old)
        (local_clock (K.shows desk.now.clock.now) desk.now.settings.now.zone) book.now.last desk.now.is_json desk.now.sheet.now look.now
        (string_bytes said.old.text)
        said.old.status (string_bytes said.new.text) said.new.status) }
{
    match look {
        TillLook::Customer(customer) => customer_look(desk, *customer, said),
        TillLook::Customers(part) => search(desk, List::Customers, part.as_str(), said),
        TillLook::Film(film) => line_look(desk, &Ask::Film(*film), said),
        TillLook::Films(part) => search(desk, List::Films, part.as_str(), said),
        TillLook::InStock(copy) => { where_is(desk, conn, book, &Ask::InStock(*copy), *copy, said) }
        TillLook::HeldBy(copy) => where_is(desk, conn, book, &Ask::HeldBy(*copy), *copy, said),
        TillLook::Copies(film) => copies(desk, *film, said),
        TillLook::Balance(customer) => balance(desk, *customer, book.last, said),
        TillLook::Overdue => overdue(desk, conn, said),
        TillLook::Arrivals => table_look(desk, &Ask::Arrivals, "nothing was sent here", said),
        TillLook::Sent => table_look(desk, &Ask::Sent, "nothing was sent", said),
        TillLook::Rewards { purchases, cents } => rewards(desk, *purchases, *cents, said),
        TillLook::Sales => sales(desk, said),
    }
}

/// Does a look of the words, and says what it shows. The book stays.
pub(crate) fn look<S: Alter, K: WallClock, V: Server, L: Shelf>(
    desk: &Desk<'_, K, V, L>,
    conn: &mut Connection<S>,
    book: &Book,
    look: TillLook,
) -> Result<Said, TillFault>
    requires { conn.old.in_transaction ≡ false }
    ensures ended { conn.new.in_transaction ≡ false }
    ensures clean { HasCleanDisk (state S.Store conn.new) → HasCleanDisk (state S.Store conn.old) }
    ensures stays { HasCleanDisk (state S.Store conn.new) → Stays (state S.Store conn.old) (state S.Store conn.new) }
    ensures says { HasCleanDisk (state S.Store conn.new) → IfOk result (λ said. PrintsLook
        (IsAnswered (V.opens desk.now.server.now) V.Reader.remaining V.Writer.contents)
        desk.now.settings.now.token (IsOnWall desk.now.wall (offset_of desk.now.settings.now.zone))
        (state S.Store conn.old) (local_clock (K.shows desk.now.clock.now) desk.now.settings.now.zone)
        book.now.last desk.now.is_json desk.now.sheet.now look (string_bytes said.text) said.status) }
{
    let mut said = Said::done(desk.alloc);
    put_look(desk, conn, book, &look, &mut said)?;
    Ok(said)
}
