//! The entries that were refused because the branch had a later moment, and weren't repeated yet.

ghost use Rattle.std.specs.Prelude.{◌≡◌, ◌≢◌, [], ◌∷◌, ◌++◌, true, length, IfOk, OnOk, string_bytes};
ghost use Rattle.std.specs.List.{All};
ghost use Rattle.shop_types.specs.Seen.{seen_command};
ghost use Rattle.till_cashier.specs.Again.{AddsLeft, AreLeft, IsBackAt, IsRefused, IsRepeated};

use crate::caches::Shelf;
use crate::clock::WallClock;
use crate::desk::Desk;
use crate::entries::EntriesAfter;
use crate::fault::TillFault;
use crate::lists_of_entries::asked_at;
use crate::today::wall_day;
use shop_types::{Act, Command, StaffNo};
use till_requests::is_same_act;
use till_work::Server;

/// An act that was refused so, and who gave it.
#[derive(Drop)]
pub(crate) struct Repeat {
    pub(crate) staff: StaffNo,
    pub(crate) act: Act,
}

/// What is to be given once more, in the order of the entries. And a line for each entry that is left out since it is of
/// another day.
#[derive(Drop)]
pub(crate) struct Repeats {
    pub(crate) acts: Vec<Repeat>,
    pub(crate) left: String,
}

/// Tests whether a later entry asks for the same by the same member of staff, whatever its outcome.
fn is_repeated<K: WallClock, V: Server, L: Shelf>(
    desk: &Desk<'_, K, V, L>,
    entries: &EntriesAfter,
    at: usize,
    command: &Command,
) -> Result<bool, TillFault>
    ensures { IfOk result (λ is. is ≡ true → IsRepeated entries.now.rows.entries at (seen_command command.now)) }
{
    for later in at.saturating_add(1)..entries.len() {
        let other = entries.command_at(desk.alloc, desk.routes, later)?;
        if other.staff == command.staff && is_same_act(&other.act, &command.act) {
            return Ok(true);
        }
    }
    Ok(false)
}

/// Reports whether the act's moment begins or ends a rental.
fn counts_days(act: &Act) -> bool {
    match act {
        Act::Rent { .. } | Act::TakeBack(_) => true,
        Act::Customer(_) | Act::Active { .. } | Act::Pay { .. } | Act::Import { .. } => false,
        Act::Dispatch { .. } | Act::Receive { .. } | Act::Scrap(_) => false,
    }
}

/// Puts a line for an entry that is left out.
fn leave_out<K: WallClock, V: Server, L: Shelf>(
    desk: &Desk<'_, K, V, L>,
    entries: &EntriesAfter,
    at: usize,
    left: &mut String,
) -> Result<(), TillFault>
    ensures { OnOk result (string_bytes left.new ≢ []) }
{
    let (alloc, number) = (desk.alloc, entries.number_at(at));
    let what = asked_at(desk, entries, at)?;
    let line = format!(in alloc; "entry {number} ({what}) is of another day: again --late\n")?;
    left.push_str(line.as_str())?;
    Ok(())
}

/// Adds an act after the others.
fn add_repeat(repeats: &mut Repeats, it: Repeat) -> Result<(), TillFault>
    ensures acts { OnOk result (repeats.new.acts.items ≡ repeats.old.acts.items ++ it ∷ []) }
    ensures left { repeats.new.left ≡ repeats.old.left }
{
    repeats.acts.push(it)?;
    Ok(())
}

/// Adds the entry at that place, if it wasn't repeated. A rent or a return of another day is left out unless `late`.
fn add_entry<K: WallClock, V: Server, L: Shelf>(
    desk: &Desk<'_, K, V, L>,
    entries: &EntriesAfter,
    at: usize,
    late: bool,
    today: i32,
    repeats: &mut Repeats,
) -> Result<(), TillFault>
    requires { IsBackAt entries.now.rows.replies at }
    ensures refused { All (IsRefused entries.now.rows.entries entries.now.rows.replies) repeats.old.acts.items
        → OnOk result (All (IsRefused entries.now.rows.entries entries.now.rows.replies) repeats.new.acts.items) }
    ensures left { OnOk result (AddsLeft entries.now.rows.entries entries.now.rows.replies at
        (string_bytes repeats.old.left) repeats.old.acts.items (string_bytes repeats.new.left) repeats.new.acts.items) }
{
    let command = entries.command_at(desk.alloc, desk.routes, at)?;
    if is_repeated(desk, entries, at, &command)? {
        return Ok(());
    }
    let is_old = desk.on_wall(command.at).day() != today;
    if is_old && !late && counts_days(&command.act) {
        return leave_out(desk, entries, at, &mut repeats.left);
    }
    let Command { staff, act, .. } = command;
    add_repeat(repeats, Repeat { staff, act })
}

/// Adds the entry at that place, if it was refused so and wasn't repeated.
fn add_refused<K: WallClock, V: Server, L: Shelf>(
    desk: &Desk<'_, K, V, L>,
    entries: &EntriesAfter,
    at: usize,
    late: bool,
    today: i32,
    repeats: &mut Repeats,
) -> Result<(), TillFault>
    ensures refused { All (IsRefused entries.now.rows.entries entries.now.rows.replies) repeats.old.acts.items
        → OnOk result (All (IsRefused entries.now.rows.entries entries.now.rows.replies) repeats.new.acts.items) }
    ensures left { OnOk result (AddsLeft entries.now.rows.entries entries.now.rows.replies at
        (string_bytes repeats.old.left) repeats.old.acts.items (string_bytes repeats.new.left) repeats.new.acts.items) }
{
    if entries.is_back_at(at) {
        add_entry(desk, entries, at, late, today, repeats)
    } else {
        Ok(())
    }
}

/// Returns the entries that are to be given once more, the oldest first.
pub(crate) fn repeats_in<K: WallClock, V: Server, L: Shelf>(
    desk: &Desk<'_, K, V, L>,
    entries: &EntriesAfter,
    late: bool,
) -> Result<Repeats, TillFault>
    ensures refused { IfOk result (λ it. All (IsRefused entries.now.rows.entries entries.now.rows.replies) it.acts.items) }
    ensures left { IfOk result (λ it. string_bytes it.left ≡ [] → AreLeft entries.now.rows.entries
        entries.now.rows.replies (length entries.now.rows.entries) it.acts.items) }
{
    let today = wall_day(desk)?;
    let mut repeats = Repeats {
        acts: Vec::new(desk.alloc),
        left: String::new(desk.alloc),
    };
    for at in 0..entries.len() {
        add_refused(desk, entries, at, late, today, &mut repeats)?;
    }
    Ok(repeats)
}
