//! Finds what the decision on a command reads: the rows that the command names.

ghost use Rattle.std.specs.Prelude.{◌≡◌, ◌≤◌, ℕ, map, IfOk};
ghost use Rattle.std.specs.List.{All};
ghost use Rattle.sql_rows.specs.Calls.{DoesWithin};
ghost use Rattle.shop_model.specs.Books.{shop_of};
ghost use Rattle.shop_types.specs.Seen.{seen_act, seen_command};
ghost use Rattle.shop_ledger.specs.Calls.{Finds};
ghost use Rattle.shop_ledger.specs.Standings.{HasStanding};
ghost use Rattle.stock_csv.specs.Stock.{stock_of};
ghost use Rattle.branch_core.specs.Agreed.{Agrees, RowAgrees, seen_stock, NamedAgree};
ghost use Rattle.branch_core.specs.Marked.{AreMarked};
ghost use Rattle.branch_finds.specs.Finds.{Knows};
ghost use Rattle.branch_finds.specs.Commands.{as_listed, found_row, stock_found, IsKeptFor};
ghost use Rattle.consign_finds.specs.Finds.{AgreesAt};
ghost use Rattle.shop_model.specs.Values as model;

use crate::finds::{find_city, find_copy, find_customer, find_rental};
use crate::known::find_withdrawn;
use branch_core::{Found, Named, RowsFound, StockFound, StockRows, named_rows};
use chain_caches::FilmCache;
use consign_finds::{find_for_dispatch, find_for_receipt};
use shop_ledger::{Count, CountKind, Standing, count_of};
use shop_store::copies::has_lot;
use shop_store::customers::active_at;
use shop_store::rentals::has_rental;
use shop_store::staff::staff_at;
use shop_types::{
    Act, BadCsv, BranchNo, Command, CopyNo, CustomerNo, KeptFound, LotName, Moment, StockFile,
};
use sql_rows::StoreFault;
use sqlite::{Alter, Transaction};
use std::alloc::Global;
use stock_csv::{StockFault, StockRow, read_stock};

/// Finds all that a decision on the branch's command reads. The kept row and the standing of the branch are given.
pub fn find_for_command<'a, S: Alter>(
    alloc: Global,
    tx: &mut Transaction<'_, S>,
    films: &mut FilmCache,
    branch: BranchNo,
    command: &Command,
    standing: Standing,
    kept: Option<KeptFound<'a>>,
) -> Result<Found<'a>, StoreFault>
    ensures { DoesWithin S.Store tx.old.conn tx.new.conn result
        (λ found. Finds (Knows films.old films.new
        (λ books. ((rules : model.Rules) → rules.stock_of ≡ stock_of → IsKeptFor branch
        (seen_command command.now) kept.entry books → HasStanding branch books standing → Agrees rules
        books.catalogue (shop_of branch books) (seen_command command.now) found)
        × AreMarked branch (seen_command command.now).act found.rows books))) }
{
    let staff = staff_at(tx, command.staff)?;
    let rows = find_rows(alloc, tx, films, branch, command)?;
    Ok(Found {
        kept,
        keys: standing.keys,
        last: standing.last,
        staff,
        rows,
    })
}

/// Finds the rows that the command's act names.
fn find_rows<S: Alter>(
    alloc: Global,
    tx: &mut Transaction<'_, S>,
    films: &mut FilmCache,
    branch: BranchNo,
    command: &Command,
) -> Result<RowsFound, StoreFault>
    ensures { DoesWithin S.Store tx.old.conn tx.new.conn result
        (λ found. Finds (Knows films.old films.new
        (AgreesAt branch command.now.at (seen_act command.now.act) found))) }
{
    match &command.act {
        Act::Rent { customer, copy } => {
            find_for_rental(alloc, tx, films, branch, command.at, *customer, *copy)
        }
        Act::Import { lot, file } => find_for_import(alloc, tx, films, branch, lot, file),
        Act::Dispatch { to, copies } => find_for_dispatch(alloc, tx, branch, *to, copies),
        Act::Receive { from, number, .. } => find_for_receipt(alloc, tx, branch, *from, *number),
        act => find_named(alloc, tx, films, branch, named_rows(act)),
    }
}

/// Finds the single rows that are named.
fn find_named<S: Alter>(
    alloc: Global,
    tx: &mut Transaction<'_, S>,
    films: &mut FilmCache,
    branch: BranchNo,
    named: Named,
) -> Result<RowsFound, StoreFault>
    ensures { DoesWithin S.Store tx.old.conn tx.new.conn result
        (λ found. Finds (Knows films.old films.new
        (λ books. NamedAgree books.catalogue (shop_of branch books) named found))) }
{
    let has_city = find_city(tx, named.city)?;
    let customer = find_customer(tx, branch, named.customer)?;
    let copy = find_copy(tx, films, branch, named.copy)?;
    let rental = find_rental(tx, branch, named.rental)?;
    Ok(RowsFound {
        has_city,
        customer,
        copy,
        rental,
        ..RowsFound::none(alloc)
    })
}

/// Finds the customer and the copy of a new rental, and whether a rental has its moment, customer and copy already.
fn find_for_rental<S: Alter>(
    alloc: Global,
    tx: &mut Transaction<'_, S>,
    films: &mut FilmCache,
    branch: BranchNo,
    at: Moment,
    customer: CustomerNo,
    copy: CopyNo,
) -> Result<RowsFound, StoreFault>
    ensures { DoesWithin S.Store tx.old.conn tx.new.conn result
        (λ found. Finds (Knows films.old films.new (AgreesAt branch at (model.Rent customer copy) found))) }
{
    let is_active = active_at(tx, branch, customer)?;
    let found = find_copy(tx, films, branch, Some(copy))?;
    let has_same = has_rental(tx, branch, at, copy, customer)?;
    Ok(RowsFound {
        customer: is_active,
        copy: found,
        has_same,
        ..RowsFound::none(alloc)
    })
}

/// Finds how many copies there are before an import, whether its lot is there, and the rows of its stock file.
fn find_for_import<S: Alter>(
    alloc: Global,
    tx: &mut Transaction<'_, S>,
    films: &mut FilmCache,
    branch: BranchNo,
    lot: &LotName,
    file: &StockFile,
) -> Result<RowsFound, StoreFault>
    ensures { DoesWithin S.Store tx.old.conn tx.new.conn result
        (λ found old new. (at : _)
        → Finds (Knows films.old films.new (AgreesAt branch at (model.Import lot.now file.now) found)) old new) }
{
    let copies = count_of(tx, Count::Of(branch, CountKind::Copies))?;
    let has_lot = has_lot(tx, branch, lot)?;
    let stock = find_stock(alloc, tx, films, file)?;
    Ok(RowsFound {
        copies,
        has_lot,
        stock,
        ..RowsFound::none(alloc)
    })
}

/// Reads the rows of the stock file and finds their films, or returns the file's fault.
fn find_stock<S: Alter>(
    alloc: Global,
    tx: &mut Transaction<'_, S>,
    films: &mut FilmCache,
    file: &StockFile,
) -> Result<Result<StockRows, BadCsv>, StoreFault>
    ensures does { DoesWithin S.Store tx.old.conn tx.new.conn result
        (λ stock. Finds (Knows films.old films.new (λ books. IfOk stock (All (RowAgrees books.catalogue))))) }
    ensures value { IfOk result (λ stock. seen_stock stock ≡ stock_of file.now) }
{
    match read_stock(alloc, file.as_slice()) {
        Ok(rows) => match StockRows::new(find_films(alloc, tx, films, rows.as_slice())?) {
            Some(found) => Ok(Ok(found)),
            None => Err(StoreFault::Failed),
        },
        Err(StockFault::Bad(fault)) => Ok(Err(fault)),
        Err(StockFault::Memory) => Err(StoreFault::Memory),
    }
}

/// Finds the films of the rows of a stock file.
fn find_films<S: Alter>(
    alloc: Global,
    tx: &mut Transaction<'_, S>,
    films: &mut FilmCache,
    rows: &[StockRow],
) -> Result<Vec<StockFound>, StoreFault>
    ensures does { DoesWithin S.Store tx.old.conn tx.new.conn result
        (λ found. Finds (Knows films.old films.new
        (λ books. found.items ≡ map (found_row books.catalogue) rows.now))) }
    ensures same { IfOk result (λ found. map as_listed found.items ≡ rows.now) }
{
    let mut found = Vec::new(alloc);
    for row in rows {
        let withdrawn = find_withdrawn(tx, films, row.film)?;
        found.push(stock_found(*row, withdrawn))?;
    }
    Ok(found)
}

/// Returns the row of a stock file. `withdrawn` says whether its film is withdrawn, if there is such a film.
fn stock_found(row: StockRow, withdrawn: Option<bool>) -> StockFound
    ensures { result ≡ stock_found row withdrawn }
{
    StockFound {
        film: row.film,
        copies: row.copies,
        is_there: withdrawn.is_some(),
        is_withdrawn: matches!(withdrawn, Some(true)),
    }
}
