//! Finds the copies that are to be sent to another branch, and a consignment that is to be received.
#![tactic(auto)]

ghost use Rattle.std.specs.Prelude.{◌≡◌, ℕ, [], ◌∷◌, false, not, map, IfOk};
ghost use Rattle.std.specs.List.{list_any};
ghost use Rattle.sql_rows.specs.Calls.{DoesWithin};
ghost use Rattle.shop_model.specs.Rows.{at, lacks, mem, of};
ghost use Rattle.shop_model.specs.Values as model;
ghost use Rattle.shop_model.specs.Stock.{in_stock};
ghost use Rattle.shop_model.specs.Books.{shop_of};
ghost use Rattle.shop_ledger.specs.Calls.{Finds};
ghost use Rattle.shop_store.specs.Seen.{seen_copy_row};
ghost use Rattle.branch_core.specs.Marked.{IsArrival};
ghost use Rattle.consign_finds.specs.Finds.{AgreesAt, AreListed, copy_parcel, line_parcel};

use branch_core::{ArrivalFound, ListedFound, RowsFound, has_unknown_copy};
use consign_store::{ConsignmentKey, LineRow, header_at, lines_of};
use shop_ledger::{Count, CountKind, copies_out, count_of, out_at};
use shop_store::branches::branch_manager;
use shop_store::copies::{CopyRow, copies_in_state, copy_at};
use shop_types::{
    BranchNo, ConsignmentNo, CopyNo, CopyNos, CopyState, ParcelLine, ParcelLines, is_here,
};
use sql_rows::StoreFault;
use sqlite::{Alter, Transaction};
use std::alloc::Global;

/// Finds whether the addressee is there, and the copies that are to be sent.
pub fn find_for_dispatch<S: Alter>(
    alloc: Global,
    tx: &mut Transaction<'_, S>,
    branch: BranchNo,
    to: BranchNo,
    copies: &CopyNos,
) -> Result<RowsFound, StoreFault>
    ensures { DoesWithin S.Store tx.old.conn tx.new.conn result
        (λ rows old new. (at : _)
        → Finds (AgreesAt branch at (model.Dispatch to copies.now) rows) old new) }
{
    let manager = branch_manager(tx, to)?;
    let listed = find_listed(alloc, tx, branch, copies.as_slice())?;
    Ok(RowsFound {
        has_branch: manager.is_some(),
        listed,
        ..RowsFound::none(alloc)
    })
}

/// Finds the listed copies. Reads only the count of the branch's copies, if it shows that one of them is unknown.
fn find_listed<S: Alter>(
    alloc: Global,
    tx: &mut Transaction<'_, S>,
    branch: BranchNo,
    copies: &[CopyNo],
) -> Result<ListedFound, StoreFault>
    ensures { DoesWithin S.Store tx.old.conn tx.new.conn result
        (λ listed. Finds (AreListed branch copies.now listed)) }
{
    let count = count_of(tx, Count::Of(branch, CountKind::Copies))?;
    if has_unknown_copy(copies, count) {
        return Ok(ListedFound {
            has_unknown: true,
            ..ListedFound::none()
        });
    }
    if 100 < copies.len() {
        find_among(alloc, tx, branch, copies)
    } else {
        find_each(alloc, tx, branch, copies)
    }
}

/// Finds the listed copies, if the branch has all of them. Reads each by its number.
fn find_each<S: Alter>(
    alloc: Global,
    tx: &mut Transaction<'_, S>,
    branch: BranchNo,
    copies: &[CopyNo],
) -> Result<ListedFound, StoreFault>
    ensures { DoesWithin S.Store tx.old.conn tx.new.conn result
        (λ listed. Finds (AreListed branch copies.now listed)) }
{
    let mut has_away = false;
    let mut has_out = false;
    let mut lines = Vec::new(alloc);
    for copy in copies {
        let (row, is_out) = find_one(tx, branch, *copy)?;
        has_away = has_away || !is_here(row.state);
        has_out = has_out || is_out;
        let Ok(()) = lines.push(copy_parcel(row)) else {
            return Err(StoreFault::Memory);
        };
    }
    Ok(ListedFound {
        has_unknown: false,
        has_away,
        has_out,
        lines: ParcelLines::new(lines),
    })
}

/// Finds the listed copies, if they are more than a consignment may have and the branch has all of them. Looks for each
/// among all copies that are away, and among all copies that are out. Reads no copy by its number, and makes no line.
fn find_among<S: Alter>(
    alloc: Global,
    tx: &mut Transaction<'_, S>,
    branch: BranchNo,
    copies: &[CopyNo],
) -> Result<ListedFound, StoreFault>
    ensures { DoesWithin S.Store tx.old.conn tx.new.conn result
        (λ listed. Finds (λ books. list_any (lacks (shop_of branch books).copies) copies.now ≡ false
        → AreListed branch copies.now listed books)) }
{
    let sent = copies_in_state(alloc, tx, branch, CopyState::Sent)?;
    let scrapped = copies_in_state(alloc, tx, branch, CopyState::Scrapped)?;
    let out = copies_out(alloc, tx, branch)?;
    let is_sent = has_any(copies, sent);
    let is_scrapped = has_any(copies, scrapped);
    Ok(ListedFound {
        has_unknown: false,
        has_away: is_sent || is_scrapped,
        has_out: has_any(copies, out),
        lines: None,
    })
}

/// Returns whether one of the copies is among the numbers. Puts the numbers in order, so that each copy is found in few
/// steps.
fn has_any(copies: &[CopyNo], numbers: Vec<CopyNo>) -> bool
    ensures { result ≡ list_any (λ copy. mem copy numbers.items) copies.now }
{
    let mut rising = numbers;
    rising.sort_unstable();
    for copy in copies {
        if rising.binary_search(copy).is_ok() {
            return true;
        }
    }
    false
}

/// Returns the copy, and whether a customer has the copy. Fails if the copy isn't there, since the branch's count
/// includes it.
fn find_one<S: Alter>(
    tx: &mut Transaction<'_, S>,
    branch: BranchNo,
    copy: CopyNo,
) -> Result<(CopyRow, bool), StoreFault>
    ensures { DoesWithin S.Store tx.old.conn tx.new.conn result
        (λ it. Finds (λ books. ((seen_copy_row it.0).it ∷ [] ≡ at copy (of branch books.copies))
        × (it.1 ≡ not (in_stock copy (shop_of branch books).rentals)))) }
{
    let Some(row) = copy_at(tx, branch, copy)? else {
        return Err(StoreFault::Failed);
    };
    let out = out_at(tx, branch, copy)?;
    Ok((row, out.is_some()))
}

/// Returns the line that the copy makes.
fn copy_parcel(row: CopyRow) -> ParcelLine
    ensures { result ≡ copy_parcel row }
{
    ParcelLine {
        film: row.film,
        mark: row.mark,
    }
}

/// Finds how many copies the branch has, and the consignment that is to be received.
pub fn find_for_receipt<S: Alter>(
    alloc: Global,
    tx: &mut Transaction<'_, S>,
    branch: BranchNo,
    from: BranchNo,
    number: ConsignmentNo,
) -> Result<RowsFound, StoreFault>
    ensures { DoesWithin S.Store tx.old.conn tx.new.conn result
        (λ rows old new. (at : _) (missing : _)
        → Finds (AgreesAt branch at (model.Receive from number missing) rows) old new) }
{
    let copies = count_of(tx, Count::Of(branch, CountKind::Copies))?;
    let key = ConsignmentKey {
        source: from,
        addressee: branch,
        number,
    };
    let arrival = find_arrival(alloc, tx, &key)?;
    Ok(RowsFound {
        copies,
        arrival,
        ..RowsFound::none(alloc)
    })
}

/// Returns the consignment with the key, if there is one. Fails if there are more than 100 lines, since no consignment
/// has more.
fn find_arrival<S: Alter>(
    alloc: Global,
    tx: &mut Transaction<'_, S>,
    key: &ConsignmentKey,
) -> Result<Option<ArrivalFound>, StoreFault>
    ensures { DoesWithin S.Store tx.old.conn tx.new.conn result
        (λ found. Finds (IsArrival key.now.addressee key.now.source key.now.number found)) }
{
    let Some(header) = header_at(tx, key)? else {
        return Ok(None);
    };
    let rows = lines_of(alloc, tx, key)?;
    let lines = line_parcels(alloc, rows.as_slice())?;
    match ParcelLines::new(lines) {
        Some(lines) => Ok(Some(ArrivalFound {
            is_received: header.received,
            lines,
        })),
        None => Err(StoreFault::Failed),
    }
}

/// Returns the films and marks of the lines.
fn line_parcels(alloc: Global, rows: &[LineRow]) -> Result<Vec<ParcelLine>, StoreFault>
    ensures { IfOk result (λ lines. lines.items ≡ map line_parcel rows.now) }
{
    let mut lines = Vec::new(alloc);
    for row in rows {
        let line = ParcelLine {
            film: row.film,
            mark: row.mark,
        };
        let Ok(()) = lines.push(line) else {
            return Err(StoreFault::Memory);
        };
    }
    Ok(lines)
}
