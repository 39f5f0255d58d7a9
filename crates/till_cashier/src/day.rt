//! What is in the drawer, and how it is closed.

ghost use Rattle.std.specs.Prelude.{◌≡◌, ◌++◌, None, false, string_bytes, IfOk, OnOk};
ghost use Rattle.sqlite.specs.Held.{state};
ghost use Rattle.sqlite.specs.State.{HasCleanDisk};
ghost use Rattle.till_book.specs.Steps.{Stays, FindsAtRest};
ghost use Rattle.till_book.specs.Drawer.{IsSince};
ghost use Rattle.till_book.specs.Tallies.{IsTally};
ghost use Rattle.till_cashier.specs.Drawers.{IsFirst, SaysDay, SaysSums, named_text, own_of, sums_text, taken_lines};

use crate::book::Book;
use crate::caches::Shelf;
use crate::clock::WallClock;
use crate::closings::{Closing, add_closing, closings};
use crate::desk::Desk;
use crate::drawers::{Change, changes, own_entries};
use crate::fault::TillFault;
use crate::said::Said;
use shop_types::Moment;
use sqlite::{Alter, Connection};
use std::alloc::Global;
use till_book::{DrawerRows, Tally, drawer_since, tally_of};
use till_shows::{all_line, came_line, closing_line, not_closed_line, taken_line};
use till_words::Drawer;
use till_work::Server;

/// What came since a closing, and its sums.
#[derive(Drop)]
struct InDrawer {
    rows: DrawerRows,
    tally: Tally,
}

/// Sums up the drawer's entries of what came. Fails with `Full` if a sum is too large.
fn summed(
    alloc: Global,
    rows: DrawerRows,
    changes: &[Change],
    drawer: u32,
) -> Result<InDrawer, TillFault>
    ensures rows { IfOk result (λ it. it.rows ≡ rows) }
    ensures sums { IfOk result (λ it. IsTally (own_of changes.now drawer rows.came.items) it.tally) }
{
    let own = own_entries(alloc, changes, drawer, rows.came.as_slice())?;
    match tally_of(alloc, own.as_slice()) {
        Ok(tally) => Ok(InDrawer { rows, tally }),
        Err(_) => Err(TillFault::Full),
    }
}

/// Reads what came since a closing, and sums up the drawer's part of it. At the closing the book had so many replies, and
/// settlements had accepted the known entries. The book stays.
fn in_drawer<S: Alter, K: WallClock, V: Server, L: Shelf>(
    desk: &Desk<'_, K, V, L>,
    conn: &mut Connection<S>,
    replies: u32,
    known: &[u32],
    changes: &[Change],
) -> Result<InDrawer, TillFault>
    requires { conn.old.in_transaction ≡ false }
    ensures ended { conn.new.in_transaction ≡ false }
    ensures clean { HasCleanDisk (state S.Store conn.new) → HasCleanDisk (state S.Store conn.old) }
    ensures stays { HasCleanDisk (state S.Store conn.new) → Stays (state S.Store conn.old) (state S.Store conn.new) }
    ensures since { HasCleanDisk (state S.Store conn.new)
        → IfOk result (λ it. FindsAtRest (IsSince replies known.now it.rows) (state S.Store conn.old) (state S.Store conn.new)) }
    ensures sums { IfOk result (λ it. IsTally (own_of changes.now desk.now.drawer it.rows.came.items) it.tally) }
{
    match drawer_since(desk.alloc, desk.routes, conn, replies, known) {
        Ok(rows) => summed(desk.alloc, rows, changes, desk.drawer),
        Err(_) => Err(TillFault::Book),
    }
}

/// Says which drawer it is, unless it is the book's own.
fn named(alloc: Global, drawer: u32) -> Result<Said, TillFault>
    ensures said { IfOk result (λ said. string_bytes said.text ≡ named_text drawer) }
    ensures status { IfOk result (λ said. said.status ≡ 0) }
{
    let mut said = Said::done(alloc);
    if drawer == 0 {
        return Ok(said);
    }
    let line = format!(in alloc; "drawer {drawer}")?;
    said.line(line.as_str())?;
    Ok(said)
}

/// Says what each member of staff took.
fn say_taken(alloc: Global, tally: &Tally, said: &mut Said) -> Result<(), TillFault>
    ensures said { OnOk result (string_bytes said.new.text
        ≡ string_bytes said.old.text ++ taken_lines tally.now.staff.items) }
    ensures status { said.new.status ≡ said.old.status }
{
    for it in tally.staff.as_slice() {
        let taken = taken_line(alloc, it.staff, it.cents)?;
        said.line(taken.as_str())?;
    }
    Ok(())
}

/// Says what is in the drawer.
fn says(
    alloc: Global,
    drawer: u32,
    last: Option<Moment>,
    waiting: u32,
    tally: &Tally,
) -> Result<Said, TillFault>
    ensures said { IfOk result (λ said. string_bytes said.text ≡ sums_text drawer last waiting tally.now) }
    ensures status { IfOk result (λ said. said.status ≡ 0) }
{
    let mut said = named(alloc, drawer)?;
    let came = came_line(
        alloc,
        last,
        tally.rents,
        tally.returns,
        tally.refused,
        waiting,
    )?;
    said.line(came.as_str())?;
    say_taken(alloc, tally, &mut said)?;
    let all = all_line(alloc, tally.paid)?;
    said.line(all.as_str())?;
    Ok(said)
}

/// What the last closing knows. If the drawer wasn't closed yet, it knows no number.
#[derive(Drop)]
struct Last {
    at: Option<Moment>,
    replies: u32,
    late: Vec<u32>,
}

/// Returns the last of the closings.
fn last_of(alloc: Global, mut closings: Vec<Closing>) -> Last
    ensures { IsFirst result.at result.replies result.late.items }
{
    match closings.pop() {
        Some(
            Closing {
                at,
                replies,
                late,
                ..
            },
        ) => Last {
            at: Some(at),
            replies,
            late,
        },
        None => Last {
            at: None,
            replies: 0,
            late: Vec::new(alloc),
        },
    }
}

/// Returns the closing that has what is in the drawer of that number.
fn closing_of(at: Moment, drawer: InDrawer, number: u32, counted: u32) -> Closing
    ensures expected { result.expected ≡ drawer.tally.paid }
    ensures counted { result.counted ≡ counted }
    ensures replies { result.replies ≡ drawer.rows.replies }
    ensures late { result.late ≡ drawer.rows.late }
    ensures drawer { result.drawer ≡ number }
{
    let InDrawer { rows, tally } = drawer;
    let DrawerRows { replies, late, .. } = rows;
    Closing {
        at,
        replies,
        expected: tally.paid,
        counted: u64::from(counted),
        late,
        drawer: number,
    }
}

/// Returns what the clock on the wall showed at the last closing, if there was one.
fn closed_at<K: WallClock, V: Server, L: Shelf>(
    desk: &Desk<'_, K, V, L>,
    at: Option<Moment>,
) -> Option<Moment>
    ensures { result ≡ None → at ≡ None }
{
    match at {
        Some(at) => Some(desk.on_wall(at)),
        None => None,
    }
}

/// What is in the drawer, and how that is said.
#[derive(Drop)]
struct DrawerSaid {
    drawer: InDrawer,
    said: Said,
}

/// Shows what is in the drawer. The book stays. Fails with `Drawer` if the last closing knows more replies than the book
/// has.
fn shown<S: Alter, K: WallClock, V: Server, L: Shelf>(
    desk: &Desk<'_, K, V, L>,
    conn: &mut Connection<S>,
    book: &Book,
) -> Result<DrawerSaid, TillFault>
    requires { conn.old.in_transaction ≡ false }
    ensures ended { conn.new.in_transaction ≡ false }
    ensures clean { HasCleanDisk (state S.Store conn.new) → HasCleanDisk (state S.Store conn.old) }
    ensures stays { HasCleanDisk (state S.Store conn.new) → Stays (state S.Store conn.old) (state S.Store conn.new) }
    ensures says { HasCleanDisk (state S.Store conn.new) → IfOk result (λ it. SaysSums book.now.place
        (state S.Store conn.old) it.drawer.tally (string_bytes it.said.text)) }
    ensures status { IfOk result (λ it. it.said.status ≡ 0) }
{
    let last = last_of(desk.alloc, closings(desk.alloc, desk.shelf, desk.drawer)?);
    let changes = changes(desk.alloc, desk.shelf)?;
    let drawer = in_drawer(
        desk,
        conn,
        last.replies,
        last.late.as_slice(),
        changes.as_slice(),
    )?;
    if drawer.rows.replies < last.replies {
        return Err(TillFault::Drawer);
    }
    let waiting = book.place.entries.saturating_sub(book.place.replies);
    let closed = closed_at(desk, last.at);
    let said = says(desk.alloc, desk.drawer, closed, waiting, &drawer.tally)?;
    Ok(DrawerSaid { drawer, said })
}

/// Shows what is in the drawer. The book stays.
fn since<S: Alter, K: WallClock, V: Server, L: Shelf>(
    desk: &Desk<'_, K, V, L>,
    conn: &mut Connection<S>,
    book: &Book,
) -> Result<Said, TillFault>
    requires { conn.old.in_transaction ≡ false }
    ensures ended { conn.new.in_transaction ≡ false }
    ensures clean { HasCleanDisk (state S.Store conn.new) → HasCleanDisk (state S.Store conn.old) }
    ensures stays { HasCleanDisk (state S.Store conn.new) → Stays (state S.Store conn.old) (state S.Store conn.new) }
    ensures says { HasCleanDisk (state S.Store conn.new) → IfOk result (λ said. SaysDay Drawer.Since book.now.place
        (state S.Store conn.old) (string_bytes said.text) said.status) }
{
    let DrawerSaid { said, .. } = shown(desk, conn, book)?;
    Ok(said)
}

/// Shows what is in the drawer, closes it, and says so. The book stays.
fn close<S: Alter, K: WallClock, V: Server, L: Shelf>(
    desk: &Desk<'_, K, V, L>,
    conn: &mut Connection<S>,
    book: &Book,
    counted: u32,
) -> Result<Said, TillFault>
    requires { conn.old.in_transaction ≡ false }
    ensures ended { conn.new.in_transaction ≡ false }
    ensures clean { HasCleanDisk (state S.Store conn.new) → HasCleanDisk (state S.Store conn.old) }
    ensures stays { HasCleanDisk (state S.Store conn.new) → Stays (state S.Store conn.old) (state S.Store conn.new) }
    ensures says { HasCleanDisk (state S.Store conn.new) → IfOk result (λ said. SaysDay (Drawer.Close counted)
        book.now.place (state S.Store conn.old) (string_bytes said.text) said.status) }
{
    let DrawerSaid { drawer, mut said } = shown(desk, conn, book)?;
    let closing = closing_of(desk.now()?, drawer, desk.drawer, counted);
    add_closing(desk.alloc, desk.shelf, &closing)?;
    let at = desk.on_wall(closing.at);
    let line = closing_line(desk.alloc, at, closing.expected, closing.counted)?;
    said.line(line.as_str())?;
    Ok(said)
}

/// Says how the drawer was closed on a day by the clock on the wall.
fn closings_on<K: WallClock, V: Server, L: Shelf>(
    desk: &Desk<'_, K, V, L>,
    day: &str,
) -> Result<Said, TillFault> {
    let alloc = desk.alloc;
    let closings = closings(alloc, desk.shelf, desk.drawer)?;
    let mut said = named(alloc, desk.drawer)?;
    let mut is_closed = false;
    for it in closings.as_slice() {
        let at = desk.on_wall(it.at);
        if at.text().as_slice().starts_with(day.as_bytes()) {
            let line = closing_line(alloc, at, it.expected, it.counted)?;
            said.line(line.as_str())?;
            is_closed = true;
        }
    }
    if !is_closed {
        let line = not_closed_line(alloc, day)?;
        said.line(line.as_str())?;
    }
    Ok(said)
}

/// Shows what is in the drawer, closes it, or shows how it was closed on a day. The book stays.
pub(crate) fn day<S: Alter, K: WallClock, V: Server, L: Shelf>(
    desk: &Desk<'_, K, V, L>,
    conn: &mut Connection<S>,
    book: &Book,
    asked: Drawer,
) -> Result<Said, TillFault>
    requires { conn.old.in_transaction ≡ false }
    ensures ended { conn.new.in_transaction ≡ false }
    ensures clean { HasCleanDisk (state S.Store conn.new) → HasCleanDisk (state S.Store conn.old) }
    ensures stays { HasCleanDisk (state S.Store conn.new) → Stays (state S.Store conn.old) (state S.Store conn.new) }
    ensures says { HasCleanDisk (state S.Store conn.new) → IfOk result (λ said. SaysDay asked book.now.place
        (state S.Store conn.old) (string_bytes said.text) said.status) }
{
    match asked {
        Drawer::Since => since(desk, conn, book),
        Drawer::Close(cents) => close(desk, conn, book, cents),
        Drawer::Closings(day) => closings_on(desk, day.as_str()),
    }
}
