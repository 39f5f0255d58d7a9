//! Where a copy is: with a customer, in the shop, or gone.

ghost use Rattle.std.specs.Prelude.{◌≡◌, ◌==◌, Some, false, true, map, IfOk, IfSome, OnOk, string_bytes};
ghost use Rattle.std.specs.List.{list_any};
ghost use Rattle.sqlite.specs.Held.{state};
ghost use Rattle.sqlite.specs.State.{HasCleanDisk};
ghost use Rattle.shop_types.specs.Seen.{seen_act, seen_ask};
ghost use Rattle.till_book.specs.Steps.{Stays};
ghost use Rattle.till_requests.specs.Zones.{offset_of};
ghost use Rattle.till_cashier.specs.Asking.{IsAnswered, IsLookedUp};
ghost use Rattle.serde_json.specs.View.{view};
ghost use Rattle.till_cashier.specs.Looking.{Adds, AddsWhere, IsHolderLine, IsInStock, IsListedStock, IsPlace, SaysPlace};
ghost use Rattle.till_cashier.specs.Stocked.{HasLeft, gone_if, has_number, listed_at, stocked_in};
ghost use Rattle.till_cashier.specs.Today.{IsOnWall};
ghost use Rattle.till_cashier.specs.Whereabouts.{HasDeparted, IsAcceptedAt, IsDeparture, departure, place_text, sent_if, whereabouts_text};

use crate::answers::{says_all, says_holder};
use crate::book::Book;
use crate::caches::Shelf;
use crate::clock::WallClock;
use crate::desk::Desk;
use crate::entries::EntriesAfter;
use crate::fault::TillFault;
use crate::lists::name_of;
use crate::looks::{line_look, looked};
use crate::said::Said;
use crate::sheet::row_of;
use serde_json::Value;
use shop_types::{Act, Ask, BranchNo, CopyNo, CopyNos, CustomerNo, FilmNo, Moment};
use sqlite::{Alter, Connection};
use std::alloc::{AllocError, Global};
use till_shows::{holder, moment_words};
use till_work::Server;

/// How many of the book's last entries are searched for a copy that isn't in the shop.
const SEARCHED: u32 = 1_000;

/// Where a copy is that no customer has.
#[derive(Clone, Copy)]
pub(crate) enum Whereabouts {
    /// It is in the shop.
    Here,
    /// It was sent to that branch, at that moment.
    Sent(BranchNo, Moment),
    /// It was scrapped, at that moment.
    Scrapped(Moment),
    /// It was sent or scrapped, and it isn't known which.
    Gone,
}

/// Returns where the copy is, as the end of a line.
fn place_text(alloc: Global, it: Whereabouts) -> Result<String, AllocError>
    ensures { IfOk result (λ s. string_bytes s ≡ place_text it) }
{
    match it {
        Whereabouts::Here => String::from_str(alloc, "is here"),
        Whereabouts::Sent(to, at) => {
            let at = moment_words(alloc, at)?;
            format!(in alloc; "was sent to branch {} ({at})", to.get())
        }
        Whereabouts::Scrapped(at) => {
            let at = moment_words(alloc, at)?;
            format!(in alloc; "was scrapped ({at})")
        }
        Whereabouts::Gone => String::from_str(alloc, "isn't here: it was sent off or scrapped"),
    }
}

/// Returns the line on a copy that no customer has: `copy 4 is here`.
fn whereabouts_line(alloc: Global, copy: CopyNo, it: Whereabouts) -> Result<String, AllocError>
    ensures { IfOk result (λ s. string_bytes s ≡ whereabouts_text copy it) }
{
    let place = place_text(alloc, it)?;
    format!(in alloc; "copy {} {place}", copy.get())
}

/// Tests whether the copy is one of the copies.
fn has_copy(copies: &CopyNos, copy: CopyNo) -> bool
    ensures { result ≡ list_any (λ it. it == copy) copies.now }
{
    copies.as_slice().iter().any(|it| it.get() == copy.get())
}

/// Returns that a copy was sent to the branch, if it was.
fn sent_if(is_sent: bool, to: BranchNo, at: Moment) -> Option<Whereabouts>
    ensures { result ≡ sent_if is_sent to at }
{
    if is_sent {
        Some(Whereabouts::Sent(to, at))
    } else {
        None
    }
}

/// Returns where an accepted act brought the copy, if it brought the copy out of the shop permanently.
fn departure(act: &Act, copy: CopyNo, at: Moment) -> Option<Whereabouts>
    ensures { result ≡ departure copy at (seen_act act.now) }
{
    match act {
        Act::Dispatch { to, copies } => sent_if(has_copy(copies, copy), *to, at),
        Act::Scrap(it) => {
            if it.get() == copy.get() {
                Some(Whereabouts::Scrapped(at))
            } else {
                None
            }
        }
        Act::Customer(_) | Act::Active { .. } | Act::Rent { .. } | Act::TakeBack(_) => None,
        Act::Pay { .. } | Act::Import { .. } | Act::Receive { .. } => None,
    }
}

/// Tests whether the last reply to the entry at that place accepted it.
fn is_accepted(entries: &EntriesAfter, at: usize) -> bool
    ensures { result ≡ true → IsAcceptedAt entries.now.number entries.now.rows.replies entries.now.rows.settled at }
{
    match entries.reply_at(at) {
        Some(reply) => reply.status == 200,
        None => false,
    }
}

/// Returns where the entry at that place brought the copy, if its reply accepted it.
fn departed_by<K: WallClock, V: Server, L: Shelf>(
    desk: &Desk<'_, K, V, L>,
    entries: &EntriesAfter,
    at: usize,
    copy: CopyNo,
) -> Result<Option<Whereabouts>, TillFault>
    ensures { IfOk result (λ it. IfSome it (λ place. IsDeparture
        (IsOnWall desk.now.wall (offset_of desk.now.settings.now.zone)) copy place entries.now.number
        entries.now.rows.replies entries.now.rows.settled entries.now.rows.entries)) }
{
    if !is_accepted(entries, at) {
        return Ok(None);
    }
    let command = entries.command_at(desk.alloc, desk.routes, at)?;
    Ok(departure(&command.act, copy, desk.on_wall(command.at)))
}

/// Returns where the entries brought the copy, if one of them did. A copy that left a branch never comes back under its
/// number.
fn departed<K: WallClock, V: Server, L: Shelf>(
    desk: &Desk<'_, K, V, L>,
    entries: &EntriesAfter,
    copy: CopyNo,
) -> Result<Option<Whereabouts>, TillFault>
    ensures { IfOk result (λ it. IfSome it (λ place. IsDeparture
        (IsOnWall desk.now.wall (offset_of desk.now.settings.now.zone)) copy place entries.now.number
        entries.now.rows.replies entries.now.rows.settled entries.now.rows.entries)) }
{
    for at in 0..entries.len() {
        if let Some(it) = departed_by(desk, entries, at, copy)? {
            return Ok(Some(it));
        }
    }
    Ok(None)
}

/// Tests whether the numbers have the copy's. Returns none at a value that is no number.
fn has_number(rows: &[Value], copy: CopyNo) -> Option<bool>
    ensures { result ≡ has_number copy (map view rows.now) }
{
    for row in rows {
        let number = row.as_u64()?;
        if number == u64::from(copy.get()) {
            return Some(true);
        }
    }
    Some(false)
}

/// Tests whether the object's list of copies has the copy. Returns none if the object has no such list.
fn lists_copy(value: &Value, copy: CopyNo) -> Option<bool>
    ensures { IfSome result (λ is. listed_at copy (view value.now) ≡ Some is) }
{
    let list = value.get("copies")?.as_array()?;
    has_number(list.as_slice(), copy)
}

/// Tests whether the list in the body of `GET /film-in-stock/{film}` has the copy. Returns none if the body has no list.
fn is_listed(alloc: Global, body: &[u8], copy: CopyNo) -> Option<bool>
    ensures { IfSome result (λ is. stocked_in copy body.now ≡ Some is) }
{
    match Value::from_slice(alloc, body) {
        Ok(value) => lists_copy(&value, copy),
        Err(_) => None,
    }
}

/// Asks the server whether the film has the copy among those in the shop. Returns none if there is no answer.
fn is_in_shop<K: WallClock, V: Server, L: Shelf>(
    desk: &Desk<'_, K, V, L>,
    film: FilmNo,
    copy: CopyNo,
) -> Option<bool>
    ensures { IfSome result (IsListedStock (IsLookedUp
        (IsAnswered (V.opens desk.now.server.now) V.Reader.remaining V.Writer.contents)
        desk.now.settings.now.token) film copy) }
{
    let answer = looked(desk, &Ask::FilmInStock(film)).ok()?;
    if answer.status != 200 {
        return None;
    }
    is_listed(desk.alloc, answer.body.as_slice(), copy)
}

/// Asks the server whether the copy is in the shop, if the sheet has the copy's film.
fn in_shop<K: WallClock, V: Server, L: Shelf>(
    desk: &Desk<'_, K, V, L>,
    copy: CopyNo,
) -> Option<bool>
    ensures { IfSome result (IsInStock (IsLookedUp
        (IsAnswered (V.opens desk.now.server.now) V.Reader.remaining V.Writer.contents)
        desk.now.settings.now.token) desk.now.sheet.now copy) }
{
    let row = row_of(desk, copy)?;
    let film = row.film?;
    is_in_shop(desk, film, copy)
}

/// Returns that the copy is gone, if the server lists its film's copies in stock without it.
fn gone_if(is_here: Option<bool>) -> Option<Whereabouts>
    ensures { result ≡ gone_if is_here }
{
    match is_here {
        Some(false) => Some(Whereabouts::Gone),
        Some(true) | None => None,
    }
}

/// Returns where the book's last entries brought the copy, if one of them did. The book stays.
fn departed_in_book<S: Alter, K: WallClock, V: Server, L: Shelf>(
    desk: &Desk<'_, K, V, L>,
    conn: &mut Connection<S>,
    book: &Book,
    copy: CopyNo,
) -> Result<Option<Whereabouts>, TillFault>
    requires { conn.old.in_transaction ≡ false }
    ensures ended { conn.new.in_transaction ≡ false }
    ensures clean { HasCleanDisk (state S.Store conn.new) → HasCleanDisk (state S.Store conn.old) }
    ensures stays { HasCleanDisk (state S.Store conn.new) → Stays (state S.Store conn.old) (state S.Store conn.new) }
    ensures left { IfOk result (λ it. IfSome it HasLeft) }
    ensures departed { HasCleanDisk (state S.Store conn.new) → IfOk result (λ it. IfSome it (HasDeparted
        (IsOnWall desk.now.wall (offset_of desk.now.settings.now.zone)) (state S.Store conn.old) copy)) }
{
    let first = book.place.entries.saturating_sub(SEARCHED);
    let entries = EntriesAfter::read(desk.alloc, conn, first)?;
    departed(desk, &entries, copy)
}

/// Returns where a copy is that no customer has, if the sheet and the server, or the book, know it. The book stays.
fn find_whereabouts<S: Alter, K: WallClock, V: Server, L: Shelf>(
    desk: &Desk<'_, K, V, L>,
    conn: &mut Connection<S>,
    book: &Book,
    copy: CopyNo,
) -> Result<Option<Whereabouts>, TillFault>
    requires { conn.old.in_transaction ≡ false }
    ensures ended { conn.new.in_transaction ≡ false }
    ensures clean { HasCleanDisk (state S.Store conn.new) → HasCleanDisk (state S.Store conn.old) }
    ensures stays { HasCleanDisk (state S.Store conn.new) → Stays (state S.Store conn.old) (state S.Store conn.new) }
    ensures known { HasCleanDisk (state S.Store conn.new) → IfOk result (λ it. IfSome it (IsPlace (IsLookedUp
        (IsAnswered (V.opens desk.now.server.now) V.Reader.remaining V.Writer.contents)
        desk.now.settings.now.token) (IsOnWall desk.now.wall (offset_of desk.now.settings.now.zone))
        (state S.Store conn.old) desk.now.sheet.now copy)) }
{
    let is_here = in_shop(desk, copy);
    if let Some(true) = is_here {
        return Ok(Some(Whereabouts::Here));
    }
    match departed_in_book(desk, conn, book, copy)? {
        Some(it) => Ok(Some(it)),
        None => Ok(gone_if(is_here)),
    }
}

/// Says who has the copy, by number and name.
fn says_who<K: WallClock, V: Server, L: Shelf>(
    desk: &Desk<'_, K, V, L>,
    copy: CopyNo,
    who: CustomerNo,
    said: &mut Said,
) -> Result<(), TillFault>
    ensures said { OnOk result (Adds (IsHolderLine copy who) (string_bytes said.old.text)
        (string_bytes said.new.text)) }
    ensures status { said.new.status ≡ said.old.status }
{
    let name = name_of(desk, who)?;
    says_holder(desk.alloc, copy, Some(who), &name, said)
}

/// Says where a copy is that no customer has. If that isn't known, says what the word's own reply has.
fn says_whereabouts<K: WallClock, V: Server, L: Shelf>(
    desk: &Desk<'_, K, V, L>,
    ask: &Ask,
    copy: CopyNo,
    it: Option<Whereabouts>,
    said: &mut Said,
) -> Result<(), TillFault>
    ensures { desk.now.is_json ≡ false → OnOk result (SaysPlace (IsLookedUp
        (IsAnswered (V.opens desk.now.server.now) V.Reader.remaining V.Writer.contents)
        desk.now.settings.now.token) (seen_ask ask.now) copy it (string_bytes said.old.text)
        said.old.status (string_bytes said.new.text) said.new.status) }
{
    match it {
        Some(it) => {
            let line = whereabouts_line(desk.alloc, copy, it)?;
            said.line(line.as_str())?;
            Ok(())
        }
        None if matches!(ask, Ask::HeldBy(_)) => says_holder(desk.alloc, copy, None, &None, said),
        None => line_look(desk, ask, said),
    }
}

/// Says where a copy is: with a customer, in the shop, sent off or scrapped, as far as it is known. `ask` is the look
/// that the word names. With `--json` its reply is said as it is. The book stays.
pub(crate) fn where_is<S: Alter, K: WallClock, V: Server, L: Shelf>(
    desk: &Desk<'_, K, V, L>,
    conn: &mut Connection<S>,
    book: &Book,
    ask: &Ask,
    copy: CopyNo,
    said: &mut Said,
) -> Result<(), TillFault>
    requires { conn.old.in_transaction ≡ false }
    ensures ended { conn.new.in_transaction ≡ false }
    ensures clean { HasCleanDisk (state S.Store conn.new) → HasCleanDisk (state S.Store conn.old) }
    ensures stays { HasCleanDisk (state S.Store conn.new) → Stays (state S.Store conn.old) (state S.Store conn.new) }
    ensures says { HasCleanDisk (state S.Store conn.new) → OnOk result (AddsWhere (IsLookedUp
        (IsAnswered (V.opens desk.now.server.now) V.Reader.remaining V.Writer.contents)
        desk.now.settings.now.token) (IsOnWall desk.now.wall (offset_of desk.now.settings.now.zone))
        (state S.Store conn.old) desk.now.is_json desk.now.sheet.now (seen_ask ask.now) copy (string_bytes said.old.text)
        said.old.status (string_bytes said.new.text) said.new.status) }
{
    if desk.is_json {
        return line_look(desk, ask, said);
    }
    let answer = looked(desk, &Ask::HeldBy(copy))?;
    if says_all(desk.alloc, desk.is_json, &answer, said)? {
        return Ok(());
    }
    match holder(desk.alloc, answer.body.as_slice())? {
        Some(who) => says_who(desk, copy, who, said),
        None => {
            let it = find_whereabouts(desk, conn, book, copy)?;
            says_whereabouts(desk, ask, copy, it, said)
        }
    }
}
