//! Entries of the book as tables.

ghost use Rattle.std.specs.Prelude.{◌≡◌, ◌∷◌, [], ℕ, List, false, take, Some, IfOk, OnOk, decimal};
ghost use Rattle.std.specs.Prelude.{option_map, slice_get, string_bytes};
ghost use Rattle.sqlite.specs.Held.{state};
ghost use Rattle.sqlite.specs.State.{HasCleanDisk};
ghost use Rattle.shop_types.specs.Seen.{seen_command};
ghost use Rattle.till_book.specs.Seen.{seen_reply};
ghost use Rattle.till_book.specs.Steps.{Stays};
ghost use Rattle.till_requests.specs.Zones.{offset_of};
ghost use Rattle.till_shows.specs.Lines.{Table as Tabled};
ghost use Rattle.till_cashier.specs.Looking.{table_or};
ghost use Rattle.till_cashier.specs.Listing.{IsAsked, IsEntryRow, IsOutcome, OfBook, OfEach, SaysAccepted, ShowsCommand, ShowsEntries, ShowsLast, ShowsWaiting};
ghost use Rattle.till_cashier.specs.Listing.{TablesEntries, with_row};

use crate::answers::says_table;
use crate::book::Book;
use crate::caches::Shelf;
use crate::clock::WallClock;
use crate::desk::Desk;
use crate::entries::EntriesAfter;
use crate::fault::TillFault;
use crate::said::Said;
use serde_json::Value;
use shop_types::{Command, StaffNo};
use sqlite::{Alter, Connection};
use std::alloc::Global;
use till_book::BookReply;
use till_shows::{Column, Row, Side, Table, asks_for, refusal_in, reply_line};
use till_work::Server;

/// Returns what an accepted entry resulted in: the reply's line, and at head office its body.
fn accepted(alloc: Global, own: Option<StaffNo>, body: &[u8]) -> Result<String, TillFault>
    ensures { IfOk result (λ text. SaysAccepted own body.now (string_bytes text)) }
{
    if own.is_some() {
        return Ok(reply_line(alloc, body)?);
    }
    match std::str::from_utf8(body) {
        Ok(text) => Ok(String::from_str(alloc, text)?),
        Err(_) => Err(TillFault::Foreign),
    }
}

/// Returns what a reply says in a few words.
fn replied(alloc: Global, own: Option<StaffNo>, reply: &BookReply) -> Result<String, TillFault>
    ensures { IfOk result (λ text. IsOutcome own (Some (seen_reply reply.now)) (string_bytes text)) }
{
    let body = reply.body.as_slice();
    match refusal_in(reply.status, body) {
        Some(refusal) => Ok(format!(in alloc; "refused: {}", refusal.name())?),
        None => accepted(alloc, own, body),
    }
}

/// Returns the outcome of an entry in a few words.
fn outcome(
    alloc: Global,
    own: Option<StaffNo>,
    reply: Option<&BookReply>,
) -> Result<String, TillFault>
    ensures { IfOk result (λ text. IsOutcome own (option_map (λ it. seen_reply it.now) reply.entry) (string_bytes text)) }
{
    match reply {
        Some(reply) => replied(alloc, own, reply),
        None => Ok(String::from_str(alloc, "waits")?),
    }
}

/// What is shown of a token.
const DOTS: &str = "....";

/// Returns the list in the body of a request.
fn list_in(alloc: Global, request: &[u8]) -> Option<Value> {
    let text = std::str::from_utf8(request).ok()?;
    let (_, body) = text.split_once("\r\n\r\n")?;
    Value::from_slice(alloc, body.as_bytes()).ok()
}

/// Puts a word as it is typed: in quotation marks where it has a blank, or nothing, in it.
fn put_word(word: &str, line: &mut String) -> Result<(), TillFault> {
    let is_quoted = word.is_empty() || word.as_bytes().contains(&b' ');
    if is_quoted {
        line.push_str("\"")?;
    }
    line.push_str(word)?;
    if is_quoted {
        line.push_str("\"")?;
    }
    Ok(())
}

/// Puts the words of the list as they are typed, with blanks between them; of a token it puts dots.
fn put_words(words: &[Value], line: &mut String) -> Result<(), TillFault> {
    let mut is_token = false;
    for value in words {
        let word = value.as_str().unwrap_or("");
        if !line.as_str().is_empty() {
            line.push_str(" ")?;
        }
        if is_token {
            line.push_str(DOTS)?;
        } else if word.starts_with("--token=") {
            line.push_str("--token=")?;
            line.push_str(DOTS)?;
        } else {
            put_word(word, line)?;
        }
        is_token = word == "--token";
    }
    Ok(())
}

/// Returns head office's words in a request as a line. The request's body lists them, and last the key, which isn't
/// shown.
fn words_line(alloc: Global, request: Option<&[u8]>) -> Result<String, TillFault> {
    let mut line = String::new(alloc);
    let list = match request {
        Some(request) => list_in(alloc, request),
        None => None,
    };
    if let Some(Value::Array(values)) = &list {
        if let [words @ .., _, _] = values.as_slice() {
            put_words(words, &mut line)?;
            return Ok(line);
        }
    }
    line.push_str("head office's words")?;
    Ok(line)
}

/// Returns what a command asks for. Its moment is shown by the clock on the wall.
fn command_line<K: WallClock, V: Server, L: Shelf>(
    desk: &Desk<'_, K, V, L>,
    command: Command,
) -> Result<String, TillFault>
    ensures { IfOk result (λ what. ShowsCommand desk.now.wall (offset_of desk.now.settings.now.zone)
        (seen_command command) (string_bytes what)) }
{
    let mut command = command;
    command.at = desk.on_wall(command.at);
    let what = asks_for(desk.alloc, &command)?;
    Ok(what)
}

/// Returns what the entry at that place asks for. Its moment is shown by the clock on the wall.
pub(crate) fn asked_at<K: WallClock, V: Server, L: Shelf>(
    desk: &Desk<'_, K, V, L>,
    entries: &EntriesAfter,
    at: usize,
) -> Result<String, TillFault>
    ensures { IfOk result (λ what. (request : List ℕ) → slice_get entries.now.rows.entries at ≡ Some request
        → IsAsked desk.now.wall (offset_of desk.now.settings.now.zone) request (string_bytes what)) }
{
    match entries.command_at(desk.alloc, desk.routes, at) {
        Ok(command) => command_line(desk, command),
        Err(TillFault::OtherBook) => words_line(desk.alloc, entries.request_at(at)),
        Err(fault) => Err(fault),
    }
}

/// Adds a row to the table.
fn add_row(
    alloc: Global,
    number: u128,
    what: String,
    became: String,
    table: &mut Table,
) -> Result<(), TillFault>
    ensures { OnOk result (table.new
        ≡ with_row (decimal number ∷ string_bytes what ∷ string_bytes became ∷ []) table.old) }
{
    let mut row = Row::new(alloc);
    row.push(format!(in alloc; "{number}")?)?;
    row.push(what)?;
    row.push(became)?;
    table.add(row)?;
    Ok(())
}

/// Adds a row for the entry at that place.
fn add_entry<K: WallClock, V: Server, L: Shelf>(
    desk: &Desk<'_, K, V, L>,
    entries: &EntriesAfter,
    at: usize,
    table: &mut Table,
) -> Result<(), TillFault>
    ensures { (request : List ℕ) → slice_get entries.now.rows.entries at ≡ Some request
        → OnOk result ((row : List (List ℕ)) × IsEntryRow desk.now.wall (offset_of desk.now.settings.now.zone)
        desk.now.settings.now.staff entries.now.number entries.now.rows.replies entries.now.rows.settled at request row
        × (table.new ≡ with_row row table.old)) }
{
    let what = asked_at(desk, entries, at)?;
    let became = outcome(desk.alloc, desk.settings.staff, entries.reply_at(at))?;
    add_row(desk.alloc, entries.number_at(at), what, became, table)
}

/// What a list of entries has.
const COLUMNS: [Column; 3] = [
    Column {
        heading: "entry",
        side: Side::Right,
    },
    Column {
        heading: "what",
        side: Side::Left,
    },
    Column {
        heading: "became",
        side: Side::Left,
    },
];

/// Returns a table of the first entries, up to that many.
fn entries_table<K: WallClock, V: Server, L: Shelf>(
    desk: &Desk<'_, K, V, L>,
    entries: &EntriesAfter,
    most: usize,
) -> Result<Table, TillFault>
    ensures { IfOk result (TablesEntries desk.now.wall (offset_of desk.now.settings.now.zone)
        desk.now.settings.now.staff entries.now.number entries.now.rows.replies entries.now.rows.settled
        (take most entries.now.rows.entries)) }
{
    let mut table = Table::new(desk.alloc, &COLUMNS)?;
    for at in 0..entries.len().min(most) {
        add_entry(desk, entries, at, &mut table)?;
    }
    Ok(table)
}

/// Shows a table of the first entries, up to that many, or the text `none` if there are none.
fn shown<K: WallClock, V: Server, L: Shelf>(
    desk: &Desk<'_, K, V, L>,
    entries: &EntriesAfter,
    most: usize,
    none: &str,
) -> Result<Said, TillFault>
    ensures says { IfOk result (λ said. (table : Tabled) × TablesEntries desk.now.wall
        (offset_of desk.now.settings.now.zone) desk.now.settings.now.staff entries.now.number entries.now.rows.replies
        entries.now.rows.settled (take most entries.now.rows.entries) table
        × (string_bytes said.text ≡ table_or none.now table)) }
    ensures status { IfOk result (λ said. said.status ≡ 0) }
{
    let table = entries_table(desk, entries, most)?;
    let mut said = Said::done(desk.alloc);
    says_table(desk.alloc, &table, none, &mut said)?;
    Ok(said)
}

/// Shows the first entries after that number as a table, up to that many. The book stays.
pub(crate) fn first_after<S: Alter, K: WallClock, V: Server, L: Shelf>(
    desk: &Desk<'_, K, V, L>,
    conn: &mut Connection<S>,
    number: u32,
    most: u32,
) -> Result<Said, TillFault>
    requires { conn.old.in_transaction ≡ false }
    ensures ended { conn.new.in_transaction ≡ false }
    ensures clean { HasCleanDisk (state S.Store conn.new) → HasCleanDisk (state S.Store conn.old) }
    ensures stays { HasCleanDisk (state S.Store conn.new) → Stays (state S.Store conn.old) (state S.Store conn.new) }
{
    let entries = EntriesAfter::read(desk.alloc, conn, number)?;
    shown(desk, &entries, most as usize, "")
}

/// Shows all entries after that number as a table, or the text `none` if there are none. The book stays.
pub(crate) fn entries_after<S: Alter, K: WallClock, V: Server, L: Shelf>(
    desk: &Desk<'_, K, V, L>,
    conn: &mut Connection<S>,
    number: u32,
    none: &str,
) -> Result<Said, TillFault>
    requires { conn.old.in_transaction ≡ false }
    ensures ended { conn.new.in_transaction ≡ false }
    ensures clean { HasCleanDisk (state S.Store conn.new) → HasCleanDisk (state S.Store conn.old) }
    ensures stays { HasCleanDisk (state S.Store conn.new) → Stays (state S.Store conn.old) (state S.Store conn.new) }
    ensures says { HasCleanDisk (state S.Store conn.new) → IfOk result (λ said. OfEach (state S.Store conn.old)
        (λ journal. ShowsEntries desk.now.wall (offset_of desk.now.settings.now.zone) desk.now.settings.now.staff
        none.now number journal (string_bytes said.text))) }
    ensures status { IfOk result (λ said. said.status ≡ 0) }
{
    let entries = EntriesAfter::read(desk.alloc, conn, number)?;
    shown(desk, &entries, entries.len(), none)
}

/// Shows the entries that have no reply yet. The book stays.
pub(crate) fn waiting_entries<S: Alter, K: WallClock, V: Server, L: Shelf>(
    desk: &Desk<'_, K, V, L>,
    conn: &mut Connection<S>,
    book: &Book,
) -> Result<Said, TillFault>
    requires { conn.old.in_transaction ≡ false }
    ensures ended { conn.new.in_transaction ≡ false }
    ensures clean { HasCleanDisk (state S.Store conn.new) → HasCleanDisk (state S.Store conn.old) }
    ensures stays { HasCleanDisk (state S.Store conn.new) → Stays (state S.Store conn.old) (state S.Store conn.new) }
    ensures says { HasCleanDisk (state S.Store conn.new)
        → IfOk result (λ said. OfBook book.now.place (state S.Store conn.old) (λ journal. ShowsWaiting desk.now.wall
        (offset_of desk.now.settings.now.zone) desk.now.settings.now.staff journal (string_bytes said.text))) }
    ensures status { IfOk result (λ said. said.status ≡ 0) }
{
    entries_after(desk, conn, book.place.replies, "nothing waits")
}

/// Shows the last entries, up to that many, with their outcomes. The book stays.
pub(crate) fn last_entries<S: Alter, K: WallClock, V: Server, L: Shelf>(
    desk: &Desk<'_, K, V, L>,
    conn: &mut Connection<S>,
    book: &Book,
    count: u32,
) -> Result<Said, TillFault>
    requires { conn.old.in_transaction ≡ false }
    ensures ended { conn.new.in_transaction ≡ false }
    ensures clean { HasCleanDisk (state S.Store conn.new) → HasCleanDisk (state S.Store conn.old) }
    ensures stays { HasCleanDisk (state S.Store conn.new) → Stays (state S.Store conn.old) (state S.Store conn.new) }
    ensures says { HasCleanDisk (state S.Store conn.new)
        → IfOk result (λ said. OfBook book.now.place (state S.Store conn.old) (λ journal. ShowsLast desk.now.wall
        (offset_of desk.now.settings.now.zone) desk.now.settings.now.staff count journal (string_bytes said.text))) }
    ensures status { IfOk result (λ said. said.status ≡ 0) }
{
    let first = book.place.entries.saturating_sub(count);
    entries_after(desk, conn, first, "nothing was entered yet")
}
