//! Writes and counts the copies of an import.

ghost use Rattle.std.specs.Prelude.{◌≡◌, ⊤, ◌+◌, ◌≤◌, ◌++◌, map, replicate, vec_len, IfOk, OnOk};
ghost use Rattle.sql_rows.specs.Calls.{DoesWithin};
ghost use Rattle.shop_model.specs.Books.{imported};
ghost use Rattle.shop_ledger.specs.Calls.{Stores};
ghost use Rattle.shop_store.specs.Seen.{seen_copy_row};
ghost use Rattle.branch_core.specs.StockLists.{copies_of, films_of};
ghost use Rattle.branch_work.specs.Added.{copies_from};
ghost use Rattle.branch_work.specs.Acts.{CarriesOut};
ghost use Rattle.shop_model.specs.Values as model;

use branch_core::{RowsFound, StockFound, copies_in, rows_in};
use shop_ledger::{Count, CountKind, take_numbers};
use shop_store::copies::{CopyRow, put_copy, put_lot};
use shop_types::{BranchNo, CopyNo, CopyState, FilmNo, LotName, Mark};
use shop_views::{Field, object_text};
use sql_rows::StoreFault;
use sqlite::{Alter, Transaction};
use std::alloc::{AllocError, Global};

/// Adds the copies that the found stock lists, and the lot. Returns the body of the reply.
pub fn import<S: Alter>(
    alloc: Global,
    tx: &mut Transaction<'_, S>,
    branch: BranchNo,
    lot: &LotName,
    found: &RowsFound,
) -> Result<String, StoreFault>
    ensures { (command : _) (file : _) → CarriesOut S.Store tx.old.conn tx.new.conn branch command
        (model.Import lot.now file) found.now result }
{
    let stock = rows_in(&found.stock);
    let count = copies_in(stock);
    let last = take_numbers(tx, Count::Of(branch, CountKind::Copies), count)?;
    let first = first_of(last, count)?;
    let copies = new_copies(alloc, branch, first, stock)?;
    put_copies(tx, copies.as_slice())?;
    put_lot(tx, branch, lot)?;
    let members = [
        Field::Number("copies", count as u64),
        Field::Number("first", first.get() as u64),
    ];
    Ok(object_text(alloc, &members)?)
}

/// Returns the first of `count` numbers that end with `last`.
pub fn first_of(last: u32, count: u32) -> Result<CopyNo, StoreFault>
    requires { last ≤ 1_000_000 }
    ensures first { IfOk result (λ first. first + count ≡ last + 1) }
    ensures bound { IfOk result (λ first. first ≤ 1_000_001) }
{
    match last.checked_sub(count) {
        Some(before) => Ok(CopyNo::new(before + 1).unwrap()),
        None => Err(StoreFault::Failed),
    }
}

/// Returns the copies that the stock lists, with numbers from the first on.
fn new_copies(
    alloc: Global,
    branch: BranchNo,
    first: CopyNo,
    stock: &[StockFound],
) -> Result<Vec<CopyRow>, AllocError>
    requires first { first ≤ 1_000_001 }
    requires few { copies_of stock.now ≤ 1_000 }
    ensures { IfOk result (λ copies. map seen_copy_row copies.items ≡ copies_from branch first (films_of stock.now)) }
{
    let mut copies = Vec::new(alloc);
    for row in stock {
        push_copies(&mut copies, branch, first, row.film, row.copies)?;
    }
    Ok(copies)
}

/// Adds `count` copies of the film to the copies of an import. The import's copies have successive numbers from `first`
/// on.
fn push_copies(
    copies: &mut Vec<CopyRow>,
    branch: BranchNo,
    first: CopyNo,
    film: FilmNo,
    count: u16,
) -> Result<(), AllocError>
    requires { first + vec_len copies.old + count ≤ 2_000_000 }
    ensures rows { OnOk result (map seen_copy_row copies.new.items
        ≡ map seen_copy_row copies.old.items ++ copies_from branch (first + vec_len copies.old)
        (replicate count film)) }
    ensures len { OnOk result (vec_len copies.new ≡ vec_len copies.old + count) }
{
    copies.reserve(count as usize)?;
    for _ in 0..count {
        copies.push_reserved(new_copy(branch, first.get() + copies.len() as u32, film));
    }
    Ok(())
}

/// Returns a copy that the branch imports, with that number.
fn new_copy(branch: BranchNo, number: u32, film: FilmNo) -> CopyRow
    requires { 1 ≤ number }
    ensures { seen_copy_row result ≡ record { branch = branch; number = number; it = imported branch film number } }
{
    let number = CopyNo::new(number).unwrap();
    CopyRow {
        branch,
        number,
        film,
        state: CopyState::Here,
        mark: Mark {
            branch,
            copy: number,
        },
    }
}

/// Writes the copies, in their order.
fn put_copies<S: Alter>(tx: &mut Transaction<'_, S>, copies: &[CopyRow]) -> Result<(), StoreFault>
    ensures { DoesWithin S.Store tx.old.conn tx.new.conn result
        (λ _. Stores (λ _. ⊤) (λ books. record books { copies = books.copies ++ map seen_copy_row copies.now })) }
{
    for row in copies {
        put_copy(tx, *row)?;
    }
    Ok(())
}
