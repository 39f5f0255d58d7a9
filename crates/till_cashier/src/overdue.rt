//! What is overdue, with the numbers of the copies, and of the rentals that the book or the sheet knows.

ghost use Rattle.std.specs.Prelude.{◌≡◌, ◌⊎◌, ◌∷◌, ◌++◌, [], ℕ, List, Some, true, false, map, slice_get, IfOk, IfSome, OnOk, codes, option_and_then, option_map, string_bytes};
ghost use Rattle.std.specs.List.{All, Contains};
ghost use Rattle.serde_json.specs.View.{view};
ghost use Rattle.sqlite.specs.Held.{state};
ghost use Rattle.sqlite.specs.State.{HasCleanDisk};
ghost use Rattle.till_book.specs.Steps.{Stays};
ghost use Rattle.till_shows.specs.Bodies.{each, rows_in};
ghost use Rattle.till_cashier.specs.Asking.{IsAnswered, IsLookedUp};
ghost use Rattle.till_cashier.specs.Clock.{local_clock};
ghost use Rattle.till_cashier.specs.Late.{IsKnown, IsLateRow, IsListedAs, IsOutOf, IsOutTo, IsRentalOf, MayBeOf, TablesLate, held_by, late_of, lates_in, number_text, seen_late};
ghost use Rattle.till_cashier.specs.Listing.{with_row};
ghost use Rattle.till_cashier.specs.Looking.{AddsLate};
ghost use Rattle.till_cashier.specs.Returns.{IsOnSheet};

use crate::answers::{says_all, says_list, says_table};
use crate::caches::Shelf;
use crate::clock::WallClock;
use crate::desk::Desk;
use crate::fault::TillFault;
use crate::looks::looked;
use crate::members::text_at;
use crate::outs::{Out, outs_of};
use crate::returns::held_at;
use crate::said::Said;
use crate::sheet::rental_of;
use serde_json::Value;
use shop_types::{Ask, CopyNo, CustomerNo, RentalNo};
use sqlite::{Alter, Connection};
use std::alloc::{AllocError, Global};
use till_book::HeldRental;
use till_shows::{Column, Row, Side, Table};
use till_work::Server;

/// What is said if nothing is overdue.
const NONE: &str = "nothing is overdue";

/// What the list has.
const COLUMNS: [Column; 5] = [
    Column {
        heading: "customer",
        side: Side::Left,
    },
    Column {
        heading: "phone",
        side: Side::Left,
    },
    Column {
        heading: "title",
        side: Side::Left,
    },
    Column {
        heading: "copy",
        side: Side::Right,
    },
    Column {
        heading: "rental",
        side: Side::Right,
    },
];

/// An overdue rental, as the server lists it.
#[derive(Drop)]
struct Late {
    /// The customer's last name, a comma, and the first name.
    customer: String,
    phone: String,
    title: String,
}

/// Returns the rental that the object is.
fn late_at(alloc: Global, row: &Value) -> Option<Late>
    ensures { IfSome result (λ late. late_of (view row.now) ≡ Some (seen_late late)) }
{
    Some(Late {
        customer: text_at(alloc, row, "customer")?,
        phone: text_at(alloc, row, "phone")?,
        title: text_at(alloc, row, "title")?,
    })
}

/// Returns the rentals that the objects are.
fn lates_of(alloc: Global, rows: &[Value]) -> Option<Vec<Late>>
    ensures { IfSome result (λ lates. each late_of (map view rows.now) ≡ Some (map seen_late lates.items)) }
{
    let mut lates = Vec::new(alloc);
    for row in rows {
        let late = late_at(alloc, row)?;
        let Ok(()) = lates.push(late) else {
            return None;
        };
    }
    Some(lates)
}

/// Returns the rentals of a list.
fn lates_at(alloc: Global, value: &Value) -> Option<Vec<Late>>
    ensures { IfSome result (λ lates. option_and_then (each late_of) (rows_in (view value.now))
        ≡ Some (map seen_late lates.items)) }
{
    let list = value.as_array()?;
    lates_of(alloc, list.as_slice())
}

/// Returns the rentals in the body of `GET /overdue/{at}`.
fn lates_in(alloc: Global, body: &[u8]) -> Option<Vec<Late>>
    ensures { IfSome result (λ lates. lates_in body.now ≡ Some (map seen_late lates.items)) }
{
    match Value::from_slice(alloc, body) {
        Ok(value) => lates_at(alloc, &value),
        Err(_) => None,
    }
}

/// Returns the titles, each once.
fn titles_in(alloc: Global, lates: &[Late]) -> Result<Vec<&str>, AllocError> {
    let mut titles: Vec<&str> = Vec::new(alloc);
    for late in lates {
        let title = late.title.as_str();
        if !titles.as_slice().iter().any(|it| *it == title) {
            titles.push(title)?;
        }
    }
    Ok(titles)
}

/// Tests whether the two rentals are listed alike.
fn is_alike(one: &Late, two: &Late) -> bool {
    one.customer == two.customer && one.phone == two.phone && one.title == two.title
}

/// Returns what follows the front in the text, if the text begins with it.
fn after<'t>(text: &'t str, front: &str) -> Option<&'t str>
    ensures { IfSome result (λ rest. text.now ≡ front.now ++ rest.now) }
{
    text.strip_prefix(front)
}

/// Tests whether the text is the first name, a blank and the last name.
fn is_joined(text: &str, first: &str, last: &str) -> bool
    ensures { result ≡ true → text.now ≡ first.now ++ (codes " " ++ last.now) }
{
    let Some(rest) = after(text, first) else {
        return false;
    };
    match after(rest, " ") {
        Some(rest) => rest == last,
        None => false,
    }
}

/// Tests whether the name is the listed customer's: `MARY SMITH` is `SMITH, MARY`.
fn is_name_of(listed: &str, name: &str) -> bool
    ensures { result ≡ true → IsListedAs name.now listed.now }
{
    match listed.split_once(", ") {
        Some((last, first)) => is_joined(name, first, last),
        None => false,
    }
}

/// Tests whether the copy is of the rental's title, and is out to a customer of that name and phone.
fn may_be_of(out: &Out, late: &Late) -> bool
    ensures { result ≡ true → MayBeOf (seen_late late.now) out.now }
{
    out.title == late.title
        && out.phone == late.phone
        && is_name_of(late.customer.as_str(), out.name.as_str())
}

/// Returns how many of the rentals are listed alike.
fn count_alike(lates: &[Late], late: &Late) -> usize {
    let mut count: usize = 0;
    for it in lates {
        if is_alike(it, late) {
            count = count.saturating_add(1);
        }
    }
    count
}

/// Returns how many of the copies may be the rental's.
fn count_outs(outs: &[Out], late: &Late) -> usize {
    let mut count: usize = 0;
    for out in outs {
        if may_be_of(out, late) {
            count = count.saturating_add(1);
        }
    }
    count
}

/// Returns the copy of that place, counted from 0, among those that may be the rental's.
fn nth_out<'o>(outs: &'o [Out], late: &Late, place: usize) -> Option<&'o Out>
    ensures found { IfSome result (λ out. Contains outs.now out.now) }
    ensures like { IfSome result (λ out. MayBeOf (seen_late late.now) out.now) }
{
    let mut before = place;
    for out in outs {
        if may_be_of(out, late) {
            if before == 0 {
                return Some(out);
            }
            before = before.saturating_sub(1);
        }
    }
    None
}

/// Returns the copy of the rental at that place. It is known if as many copies may be the rental's as rentals are listed
/// alike. Otherwise one of the copies isn't overdue, or one isn't known.
fn out_at<'o>(lates: &[Late], outs: &'o [Out], late: &Late, at: usize) -> Option<&'o Out>
    ensures found { IfSome result (λ out. Contains outs.now out.now) }
    ensures like { IfSome result (λ out. MayBeOf (seen_late late.now) out.now) }
{
    if count_alike(lates, late) != count_outs(outs, late) {
        return None;
    }
    nth_out(outs, late, count_alike(lates.get(..at)?, late))
}

/// Returns the rental that the register has, if it is the customer's.
fn rental_held(held: Option<HeldRental>, customer: CustomerNo) -> Option<RentalNo>
    ensures { IfSome result (λ rental. held ≡ Some (held_by rental customer)) }
{
    match held {
        Some(held) if held.customer.get() == customer.get() => Some(held.rental),
        Some(_) | None => None,
    }
}

/// Returns the rental that the sheet has of the copy, if it is the customer's.
fn rental_written<K: WallClock, V: Server, L: Shelf>(
    desk: &Desk<'_, K, V, L>,
    copy: CopyNo,
    customer: CustomerNo,
) -> Option<RentalNo>
    ensures { IfSome result (λ rental. IsOnSheet desk.now.sheet.now copy (held_by rental customer)) }
{
    match rental_of(desk, copy, customer) {
        Ok(held) => Some(held.rental),
        Err(_) => None,
    }
}

/// Returns the rental of a copy that the customer has: the register's, or else the sheet's, if it is that customer's.
fn rental_by<K: WallClock, V: Server, L: Shelf>(
    desk: &Desk<'_, K, V, L>,
    held: Option<HeldRental>,
    copy: CopyNo,
    customer: CustomerNo,
) -> Option<RentalNo>
    ensures { IfSome result (λ rental. (held ≡ Some (held_by rental customer))
        ⊎ IsOnSheet desk.now.sheet.now copy (held_by rental customer)) }
{
    match rental_held(held, customer) {
        Some(rental) => Some(rental),
        None => rental_written(desk, copy, customer),
    }
}

/// Returns the rental of a copy that is out, if the register or the sheet knows it. The book stays.
fn rental_of_out<S: Alter, K: WallClock, V: Server, L: Shelf>(
    desk: &Desk<'_, K, V, L>,
    conn: &mut Connection<S>,
    out: &Out,
) -> Result<Option<RentalNo>, TillFault>
    requires { conn.old.in_transaction ≡ false }
    ensures ended { conn.new.in_transaction ≡ false }
    ensures clean { HasCleanDisk (state S.Store conn.new) → HasCleanDisk (state S.Store conn.old) }
    ensures stays { HasCleanDisk (state S.Store conn.new) → Stays (state S.Store conn.old) (state S.Store conn.new) }
    ensures known { HasCleanDisk (state S.Store conn.new) → IfOk result (λ rental. IfSome rental
        (IsRentalOf (state S.Store conn.old) desk.now.sheet.now out.now.copy out.now.customer)) }
{
    let held = held_at(conn, out.copy)?;
    Ok(rental_by(desk, held, out.copy, out.customer))
}

/// Returns the number as a text, or an empty text.
fn number_text(alloc: Global, number: Option<u32>) -> Result<String, AllocError>
    ensures { IfOk result (λ text. string_bytes text ≡ number_text number) }
{
    match number {
        Some(number) => format!(in alloc; "{number}"),
        None => Ok(String::new(alloc)),
    }
}

/// Returns the rental's row.
fn row_text(
    alloc: Global,
    late: &Late,
    copy: Option<u32>,
    rental: Option<u32>,
) -> Result<Row, AllocError>
    ensures { IfOk result (λ row. row ≡ seen_late late.now ++ number_text copy ∷ number_text rental ∷ []) }
{
    let mut row = Row::new(alloc);
    row.push(late.customer.clone()?)?;
    row.push(late.phone.clone()?)?;
    row.push(late.title.clone()?)?;
    row.push(number_text(alloc, copy)?)?;
    row.push(number_text(alloc, rental)?)?;
    Ok(row)
}

/// The numbers of a rental that are known.
#[derive(Clone, Copy)]
struct Known {
    copy: Option<u32>,
    rental: Option<u32>,
}

/// Returns the numbers of the copy that is out, and of its rental, if they are known. The book stays.
fn known_of<S: Alter, K: WallClock, V: Server, L: Shelf>(
    desk: &Desk<'_, K, V, L>,
    conn: &mut Connection<S>,
    out: Option<&Out>,
) -> Result<Known, TillFault>
    requires { conn.old.in_transaction ≡ false }
    ensures ended { conn.new.in_transaction ≡ false }
    ensures clean { HasCleanDisk (state S.Store conn.new) → HasCleanDisk (state S.Store conn.old) }
    ensures stays { HasCleanDisk (state S.Store conn.new) → Stays (state S.Store conn.old) (state S.Store conn.new) }
    ensures known { HasCleanDisk (state S.Store conn.new) → (late : List (List ℕ)) → IfSome out.entry (λ out. IsOutTo (IsLookedUp
        (IsAnswered (V.opens desk.now.server.now) V.Reader.remaining V.Writer.contents)
        desk.now.settings.now.token) late out.now)
        → IfOk result (λ it. IsKnown (IsLookedUp
        (IsAnswered (V.opens desk.now.server.now) V.Reader.remaining V.Writer.contents)
        desk.now.settings.now.token) (state S.Store conn.old) desk.now.sheet.now late it.copy it.rental) }
{
    let Some(out) = out else {
        return Ok(Known {
            copy: None,
            rental: None,
        });
    };
    let rental = match rental_of_out(desk, conn, out)? {
        Some(rental) => Some(rental.get()),
        None => None,
    };
    let copy = Some(out.copy.get());
    Ok(Known { copy, rental })
}

/// Adds a row for the rental. The book stays.
fn add_late<S: Alter, K: WallClock, V: Server, L: Shelf>(
    desk: &Desk<'_, K, V, L>,
    conn: &mut Connection<S>,
    late: &Late,
    out: Option<&Out>,
    table: &mut Table,
) -> Result<(), TillFault>
    requires { conn.old.in_transaction ≡ false }
    ensures ended { conn.new.in_transaction ≡ false }
    ensures clean { HasCleanDisk (state S.Store conn.new) → HasCleanDisk (state S.Store conn.old) }
    ensures stays { HasCleanDisk (state S.Store conn.new) → Stays (state S.Store conn.old) (state S.Store conn.new) }
    ensures added { HasCleanDisk (state S.Store conn.new) → IfSome out.entry (λ out. IsOutTo (IsLookedUp
        (IsAnswered (V.opens desk.now.server.now) V.Reader.remaining V.Writer.contents)
        desk.now.settings.now.token) (seen_late late.now) out.now)
        → OnOk result ((row : List (List ℕ)) × IsLateRow (IsLookedUp
        (IsAnswered (V.opens desk.now.server.now) V.Reader.remaining V.Writer.contents)
        desk.now.settings.now.token) (state S.Store conn.old) desk.now.sheet.now
        (seen_late late.now) row × (table.new ≡ with_row row table.old)) }
{
    let Known { copy, rental } = known_of(desk, conn, out)?;
    let row = row_text(desk.alloc, late, copy, rental)?;
    table.add(row)?;
    Ok(())
}

/// Returns the table of the rentals, with the numbers that are known. The book stays.
fn table_of<S: Alter, K: WallClock, V: Server, L: Shelf>(
    desk: &Desk<'_, K, V, L>,
    conn: &mut Connection<S>,
    lates: &[Late],
    outs: &[Out],
) -> Result<Table, TillFault>
    requires { conn.old.in_transaction ≡ false }
    ensures ended { conn.new.in_transaction ≡ false }
    ensures clean { HasCleanDisk (state S.Store conn.new) → HasCleanDisk (state S.Store conn.old) }
    ensures stays { HasCleanDisk (state S.Store conn.new) → Stays (state S.Store conn.old) (state S.Store conn.new) }
    ensures rows { HasCleanDisk (state S.Store conn.new) → All (IsOutOf (IsLookedUp
        (IsAnswered (V.opens desk.now.server.now) V.Reader.remaining V.Writer.contents)
        desk.now.settings.now.token)) outs.now
        → IfOk result (TablesLate (IsLookedUp
        (IsAnswered (V.opens desk.now.server.now) V.Reader.remaining V.Writer.contents)
        desk.now.settings.now.token) (state S.Store conn.old) desk.now.sheet.now (map seen_late lates.now)) }
{
    let mut table = Table::new(desk.alloc, &COLUMNS)?;
    'lates: for at in 0..lates.len() {
        let late = &lates[at];
        let out = out_at(lates, outs, late, at);
        match add_late(desk, conn, late, out, &mut table) {
            Ok(()) => continue,
            Err(fault) => return Err(fault),
        }
    }
    Ok(table)
}

/// Says what is overdue. It has a rental's copy if the server says who has which copies of the film. It has the rental's
/// number if the register or the sheet knows that. The book stays.
pub(crate) fn overdue<S: Alter, K: WallClock, V: Server, L: Shelf>(
    desk: &Desk<'_, K, V, L>,
    conn: &mut Connection<S>,
    said: &mut Said,
) -> Result<(), TillFault>
    requires { conn.old.in_transaction ≡ false }
    ensures ended { conn.new.in_transaction ≡ false }
    ensures clean { HasCleanDisk (state S.Store conn.new) → HasCleanDisk (state S.Store conn.old) }
    ensures stays { HasCleanDisk (state S.Store conn.new) → Stays (state S.Store conn.old) (state S.Store conn.new) }
    ensures says { HasCleanDisk (state S.Store conn.new) → OnOk result (AddsLate (IsLookedUp
        (IsAnswered (V.opens desk.now.server.now) V.Reader.remaining V.Writer.contents)
        desk.now.settings.now.token) (state S.Store conn.old) desk.now.sheet.now
        (local_clock (K.shows desk.now.clock.now) desk.now.settings.now.zone) desk.now.is_json
        (string_bytes said.old.text)
        said.old.status (string_bytes said.new.text) said.new.status) }
{
    let ask = Ask::Overdue(desk.now()?);
    let answer = looked(desk, &ask)?;
    if says_all(desk.alloc, desk.is_json, &answer, said)? {
        return Ok(());
    }
    let body = answer.body.as_slice();
    let Some(lates) = lates_in(desk.alloc, body) else {
        return Err(TillFault::Foreign);
    };
    let titles = titles_in(desk.alloc, lates.as_slice())?;
    let outs = outs_of(desk, titles.as_slice());
    if outs.is_empty() {
        return says_list(desk.alloc, &ask, body, NONE, said);
    }
    let table = table_of(desk, conn, lates.as_slice(), outs.as_slice())?;
    says_table(desk.alloc, &table, NONE, said)
}
