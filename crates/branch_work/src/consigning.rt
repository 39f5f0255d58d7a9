//! Moves copies from branch to branch. A dispatch sends listed copies as the lines of a consignment. A receipt makes
//! copies of the lines that came.

ghost use Rattle.std.specs.Prelude.{◌≡◌, ⊤, ◌+◌, ◌≤◌, ◌++◌, length, map, IfOk};
ghost use Rattle.sql_rows.specs.Calls.{DoesWithin};
ghost use Rattle.shop_model.specs.Rows.{AreNumbered, is_of, set_rows};
ghost use Rattle.shop_model.specs.Books.{put_state};
ghost use Rattle.shop_ledger.specs.Calls.{Stores};
ghost use Rattle.shop_store.specs.Seen.{seen_copy_row};
ghost use Rattle.branch_core.specs.Consigned.{come_copy, made_from};
ghost use Rattle.branch_work.specs.Acts.{CarriesOut};
ghost use Rattle.shop_model.specs.Values as model;

use crate::importing::first_of;
use branch_core::{RowsFound, arrived_lines};
use consign_store::{ConsignmentKey, last_place, mark_received, put_consignment, take_pair};
use shop_ledger::{Count, CountKind, take_numbers};
use shop_schema::DispatchPlace;
use shop_store::copies::{CopyRow, put_copy, set_state};
use shop_types::{BranchNo, ConsignmentNo, CopyNo, CopyState, LineNo, ParcelLine};
use shop_views::{Field, counted_text, object_text};
use sql_rows::StoreFault;
use sqlite::{Alter, Transaction};
use std::alloc::Global;

/// Sends the listed copies to the other branch, as a consignment of the lines that were made of them. Returns the body
/// of the reply.
pub fn dispatch<S: Alter>(
    alloc: Global,
    tx: &mut Transaction<'_, S>,
    branch: BranchNo,
    to: BranchNo,
    copies: &[CopyNo],
    found: &RowsFound,
) -> Result<String, StoreFault>
    ensures { (command : _) → CarriesOut S.Store tx.old.conn tx.new.conn branch command
        (model.Dispatch to copies.now) found.now result }
{
    let Some(lines) = &found.listed.lines else {
        return Err(StoreFault::Failed);
    };
    let last = last_place(tx)?;
    let place = next_place(last)?;
    let number = take_pair(tx, branch, to)?;
    let key = ConsignmentKey {
        source: branch,
        addressee: to,
        number,
    };
    put_consignment(tx, &key, place, lines)?;
    set_sent(tx, branch, copies)?;
    let members = [
        Field::Number("consignment", number.get() as u64),
        Field::Number("to", to.get() as u64),
    ];
    Ok(object_text(alloc, &members)?)
}

/// Returns the place after the place of the last consignment. `last` is 0 if there is no consignment.
fn next_place(last: u64) -> Result<DispatchPlace, StoreFault>
    ensures { IfOk result (λ place. place ≡ last + 1) }
{
    let Some(next) = last.checked_add(1) else {
        return Err(StoreFault::Failed);
    };
    match DispatchPlace::new(next) {
        Some(place) => Ok(place),
        None => Err(StoreFault::Failed),
    }
}

/// Records that each of the copies is sent.
fn set_sent<S: Alter>(
    tx: &mut Transaction<'_, S>,
    branch: BranchNo,
    copies: &[CopyNo],
) -> Result<(), StoreFault>
    ensures { DoesWithin S.Store tx.old.conn tx.new.conn result
        (λ _. Stores (λ books. AreNumbered (is_of branch) (λ row. row.number) books.copies)
        (λ books. record books { copies = set_rows branch copies.now (put_state model.Sent) books.copies })) }
{
    for copy in copies {
        set_state(tx, branch, *copy, CopyState::Sent)?;
    }
    Ok(())
}

/// Receives the consignment that was found, and returns the body of the reply. The lines that aren't missing become
/// copies with the branch's next numbers, and keep their marks.
pub fn receive<S: Alter>(
    alloc: Global,
    tx: &mut Transaction<'_, S>,
    branch: BranchNo,
    from: BranchNo,
    number: ConsignmentNo,
    missing: &[LineNo],
    found: &RowsFound,
) -> Result<String, StoreFault>
    ensures { (command : _) → CarriesOut S.Store tx.old.conn tx.new.conn branch command
        (model.Receive from number missing.now) found.now result }
{
    let Some(arrival) = &found.arrival else {
        return Err(StoreFault::Failed);
    };
    let lines = arrival.lines.as_slice();
    let Ok(arrived) = arrived_lines(alloc, &arrival.lines, missing) else {
        return Err(StoreFault::Memory);
    };
    let come = arrived.as_slice();
    let count = come.len() as u32;
    let last = take_numbers(tx, Count::Of(branch, CountKind::Copies), count)?;
    let first = first_of(last, count)?;
    put_come(tx, branch, first, come)?;
    let key = ConsignmentKey {
        source: from,
        addressee: branch,
        number,
    };
    mark_received(tx, &key, lines.len() as u32, missing)?;
    Ok(counted_text(alloc, "copies", first.get(), count)?)
}

/// Writes a copy for each line that came, in their order, with numbers from the first on.
fn put_come<S: Alter>(
    tx: &mut Transaction<'_, S>,
    branch: BranchNo,
    first: CopyNo,
    come: &[ParcelLine],
) -> Result<(), StoreFault>
    requires first { first ≤ 1_000_001 }
    requires few { length come.now ≤ 100 }
    ensures { DoesWithin S.Store tx.old.conn tx.new.conn result
        (λ _. Stores (λ _. ⊤)
        (λ books. record books { copies = books.copies ++ made_from branch first (map come_copy come.now) })) }
{
    let mut number = first.get();
    for line in come {
        put_copy(tx, come_copy(branch, number, *line))?;
        number += 1;
    }
    Ok(())
}

/// Returns a line that came as a copy of that number. The copy has the mark of the line.
fn come_copy(branch: BranchNo, number: u32, line: ParcelLine) -> CopyRow
    requires { 1 ≤ number }
    ensures { seen_copy_row result ≡ record { branch = branch; number = number; it = come_copy line number } }
{
    CopyRow {
        branch,
        number: CopyNo::new(number).unwrap(),
        film: line.film,
        state: CopyState::Here,
        mark: line.mark,
    }
}
