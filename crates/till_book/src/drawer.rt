//! What came into the drawer since it was last closed.

ghost use Rattle.std.specs.Prelude.{◌≡◌, ◌+◌, ◌++◌, ◌<◌, ◌≤◌, ℕ, List, Some, false, true, map, option_map, slice_get, IfOk, OnOk};
ghost use Rattle.std.specs.Option.{option_to_list};
ghost use Rattle.sqlite.specs.Held.{state};
ghost use Rattle.sqlite.specs.State.{HasCleanDisk, Survives};
ghost use Rattle.shop_types.specs.Seen.{seen_command};
ghost use Rattle.shop_model.specs.Values.{Command as Written};
ghost use Rattle.sql_rows.specs.Calls.{DoesInside};
ghost use Rattle.till_model.specs.Laws.{entries_of};
ghost use Rattle.till_book.specs.Saying.{Say, Says};
ghost use Rattle.till_book.specs.Seen.{seen_reply, seen_settlement};
ghost use Rattle.till_book.specs.Journal.{Finds};
ghost use Rattle.till_book.specs.Steps.{Stays, FindsAtRest};
ghost use Rattle.till_book.specs.Drawer.{IsSince, came, counted_from, counted_of, counts, is_among, is_answered, is_new, late_of};

use crate::ends::reply_count;
use crate::reading::{all_settled, rows_after};
use crate::rows::{BookEntry, BookReply, Settlement};
use counter_routes::Routes;
use shop_types::{Act, Amount, Command, StaffNo};
use sql_rows::StoreFault;
use sqlite::{Alter, Connection, Transaction};
use std::alloc::Global;
use till_client::{NotSealed, command_of};

/// How the drawer counts an entry.
#[derive(Clone, Copy)]
pub enum Counted {
    /// An accepted payment, with who took it.
    Paid { staff: StaffNo, amount: Amount },
    /// An accepted rent.
    Rented,
    /// An accepted return.
    Returned,
    /// Another accepted command.
    Other,
    /// An entry that was refused.
    Refused,
}

/// An entry that came: its number, and how the drawer counts it.
pub type Came = (u32, Counted);

/// What came into the drawer since a closing, and what the next closing has to know of the book.
#[derive(Drop)]
pub struct DrawerRows {
    pub came: Vec<Came>,
    /// How many replies the book has.
    pub replies: u32,
    /// The numbers of the entries that settlements accepted.
    pub late: Vec<u32>,
}

/// Returns how the drawer counts an accepted command.
fn counted_of(command: &Command) -> Counted
    ensures { result ≡ counted_of (seen_command command.now) }
{
    match &command.act {
        Act::Pay { amount, .. } => Counted::Paid {
            staff: command.staff,
            amount: *amount,
        },
        Act::Rent { .. } => Counted::Rented,
        Act::TakeBack(_) => Counted::Returned,
        Act::Customer(_) | Act::Active { .. } | Act::Import { .. } => Counted::Other,
        Act::Dispatch { .. } | Act::Receive { .. } | Act::Scrap(_) => Counted::Other,
    }
}

/// Returns the numbers of the entries that settlements accepted.
fn late_numbers(alloc: Global, settled: &[Settlement]) -> Result<Vec<u32>, StoreFault>
    ensures { IfOk result (λ late. late.items ≡ late_of (map seen_settlement settled.now)) }
{
    let mut late = Vec::new(alloc);
    for it in settled {
        if it.reply.status == 200 {
            late.push(it.number)?;
        }
    }
    Ok(late)
}

/// Tests whether the list has the number.
fn is_among(number: u32, numbers: &[u32]) -> bool
    ensures { result ≡ is_among number numbers.now }
{
    numbers.iter().any(|it| *it == number)
}

/// Returns the number after which entries are read: the number of replies at the closing, or less if a settlement
/// accepted an earlier entry since.
fn first_needed(replies: u32, known: &[u32], late: &[u32]) -> u32
    ensures low { result ≤ replies }
    ensures before { (n : ℕ) → 0 < n → is_among n late.now ≡ true → is_among n known.now ≡ false → result < n }
{
    let mut from = replies;
    for it in late {
        if !is_among(*it, known) && *it <= from {
            from = it.saturating_sub(1);
        }
    }
    from
}

/// Tests whether the entry of that number was accepted since the closing.
fn is_new(replies: u32, known: &[u32], late: &[u32], number: u32, reply: Option<&BookReply>) -> bool
    ensures { result ≡ is_new replies known.now late.now number (option_map (λ it. seen_reply it.now) reply.entry) }
{
    let is_accepted = match reply {
        Some(it) => it.status == 200,
        None => false,
    };
    number > replies && is_accepted || is_among(number, late) && !is_among(number, known)
}

/// Returns how the drawer counts a request that was accepted. A request that says no command isn't counted.
fn counted_request(
    alloc: Global,
    routes: &Routes,
    request: &[u8],
) -> Result<Option<Counted>, StoreFault>
    ensures { IfOk result (λ it. (command : Written) → Says request.now command
        → it ≡ Some (counted_of command)) }
{
    match command_of(alloc, routes, request) {
        Ok(command) => Ok(Some(counted_of(&command))),
        Err(NotSealed::Other) => Ok(None),
        Err(NotSealed::Memory) => Err(StoreFault::Memory),
    }
}

/// Returns the entry of that number with how it is counted, if it is.
fn came_as(number: u32, counted: Option<Counted>) -> Option<Came>
    ensures { result ≡ option_map (came number) counted }
{
    match counted {
        Some(what) => Some((number, what)),
        None => None,
    }
}

/// Returns how the drawer counts the entry of that number, if it came since the closing.
fn counted_at(
    alloc: Global,
    routes: &Routes,
    replies: u32,
    known: &[u32],
    late: &[u32],
    number: u32,
    request: &[u8],
    reply: Option<&BookReply>,
) -> Result<Option<Came>, StoreFault>
    ensures { IfOk result (λ it. (command : Written) → Says request.now command → option_to_list it
        ≡ counts replies known.now late.now number
        (record { command = command; reply = option_map (λ it. seen_reply it.now) reply.entry })) }
{
    if is_new(replies, known, late, number, reply) {
        let counted = counted_request(alloc, routes, request)?;
        return Ok(came_as(number, counted));
    }
    if number > replies && reply.is_some() {
        return Ok(came_as(number, Some(Counted::Refused)));
    }
    Ok(None)
}

/// Returns the number of the entry at that place after a number. Fails if it is too large.
fn number_at(from: u32, at: usize) -> Result<u32, StoreFault>
    ensures { IfOk result (λ n. n ≡ from + 1 + at) }
{
    let Ok(place) = u32::try_from(at) else {
        return Err(StoreFault::Failed);
    };
    let Some(number) = from.checked_add(place) else {
        return Err(StoreFault::Failed);
    };
    match number.checked_add(1) {
        Some(number) => Ok(number),
        None => Err(StoreFault::Failed),
    }
}

/// Returns the reply to the entry at that place, if it has one.
fn reply_at(answers: &[BookReply], at: usize) -> Option<&BookReply>
    ensures { option_map (λ it. seen_reply it.now) result ≡ slice_get (map seen_reply answers.now) at }
{
    match answers.get(at) {
        Some(reply) => Some(reply),
        None => None,
    }
}

/// Adds what is counted, if there is something.
fn push_counted(it: Option<Came>, all: &mut Vec<Came>) -> Result<(), StoreFault>
    ensures { OnOk result (all.new.items ≡ all.old.items ++ option_to_list it) }
{
    if let Some(it) = it {
        all.push(it)?;
    }
    Ok(())
}

/// Returns how the drawer counts the entries after a number.
fn count_rows(
    alloc: Global,
    routes: &Routes,
    replies: u32,
    known: &[u32],
    late: &[u32],
    from: u32,
    entries: &[BookEntry],
    answers: &[BookReply],
) -> Result<Vec<Came>, StoreFault>
    ensures { IfOk result (λ all. (commands : List Written) → Say (map (λ row. row.request) entries.now) commands
        → all.items ≡ counted_from replies known.now late.now (from + 1)
        (entries_of commands (map seen_reply answers.now))) }
{
    let mut all = Vec::new(alloc);
    for (at, entry) in entries.iter().enumerate() {
        let number = number_at(from, at)?;
        let request = entry.request.as_slice();
        let reply = reply_at(answers, at);
        let it = counted_at(alloc, routes, replies, known, late, number, request, reply)?;
        push_counted(it, &mut all)?;
    }
    Ok(all)
}

/// Reads what came since the closing at which the book had so many replies, and settlements had accepted the entries of
/// the known numbers.
fn rows_since<S: Alter>(
    alloc: Global,
    routes: &Routes,
    tx: &mut Transaction<'_, S>,
    replies: u32,
    known: &[u32],
) -> Result<DrawerRows, StoreFault>
    ensures { DoesInside S.Store tx.old.conn tx.new.conn result
        (λ it. Finds (IsSince replies known.now it)) }
{
    let settled = all_settled(alloc, tx)?;
    let late = late_numbers(alloc, settled.as_slice())?;
    let from = first_needed(replies, known, late.as_slice());
    let rows = rows_after(alloc, tx, from)?;
    let (entries, answers) = (rows.entries.as_slice(), rows.replies.as_slice());
    let came = count_rows(
        alloc,
        routes,
        replies,
        known,
        late.as_slice(),
        from,
        entries,
        answers,
    )?;
    let replies = reply_count(tx)?;
    Ok(DrawerRows {
        came,
        replies,
        late,
    })
}

/// Reads what came into the drawer since a closing. At the closing the book had so many replies, and settlements had
/// accepted the entries of the known numbers. Nothing changes, even if this fails.
pub fn drawer_since<S: Alter>(
    alloc: Global,
    routes: &Routes,
    conn: &mut Connection<S>,
    replies: u32,
    known: &[u32],
) -> Result<DrawerRows, StoreFault>
    requires { conn.old.in_transaction ≡ false }
    ensures ended { conn.new.in_transaction ≡ false }
    ensures found { HasCleanDisk (state S.Store conn.new)
        → IfOk result (λ it. FindsAtRest (IsSince replies known.now it) (state S.Store conn.old) (state S.Store conn.new)) }
    ensures stays { HasCleanDisk (state S.Store conn.new) → Stays (state S.Store conn.old) (state S.Store conn.new) }
    ensures crash { Survives (state S.Store conn.old) (state S.Store conn.new) (λ _. ⊥) }
{
    let mut tx = conn.transaction();
    let found = rows_since(alloc, routes, &mut tx, replies, known);
    tx.rollback();
    found
}
