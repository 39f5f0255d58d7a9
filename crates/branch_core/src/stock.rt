//! Counts the copies that the rows of a stock file make, and finds the first refusal of their import.

ghost use Rattle.std.specs.Prelude.{◌≡◌, ◌≤◌, nat_le, not, [], Some, None, IfOk, if◌then◌else◌};
ghost use Rattle.std.specs.List.{All, list_any};
ghost use Rattle.std.specs.Str.{bytes_eq};
ghost use Rattle.shop_model.specs.Values.{Text, Copies};
ghost use Rattle.shop_model.specs.Shop.{Catalogue, Shop};
ghost use Rattle.shop_model.specs.Verdict.{first};
ghost use Rattle.shop_model.specs.Acts.{import_refusals, new_in, films_in};
ghost use Rattle.shop_types.specs.Verdicts.{verdict_by};
ghost use Rattle.branch_core.specs.StockLists.{films_of, copies_of};
ghost use Rattle.branch_core.specs.Agreed.{RowAgrees, seen_stock};

use crate::StockFound;
use shop_types::{BadCsv, Refusal};
use std::alloc::Global;
use std::marker::Model;

/// The rows of a stock file, with what the catalogue says of their films. They list at most 1,000 copies in all.
#[derive(Drop)]
pub struct StockRows {
    rows: Vec<StockFound>,
}

impl Model for StockRows {
    ghost use Rattle.std.specs.Prelude.{◌≤◌, List};
    ghost use Rattle.branch_core.specs.declared.found.StockFound.{StockFound};
    ghost use Rattle.branch_core.specs.StockLists.{copies_of};

    ghost Value = { List StockFound };

    ghost view = { λ it. it.rows.items };

    ghost invariant = { λ it. copies_of it.rows.items ≤ 1_000 };
}

impl StockRows {
    /// Returns the rows, if they list no more than 1,000 copies. It takes over the `Vec`, and so takes no memory.
    pub fn new(rows: Vec<StockFound>) -> Option<StockRows>
        ensures { result ≡ (if nat_le (copies_of rows.items) 1_000 then Some rows.items else None) }
    {
        if are_few(rows.as_slice()) {
            Some(StockRows { rows })
        } else {
            None
        }
    }

    /// Returns a value without rows.
    pub fn none(alloc: Global) -> StockRows
        ensures { result ≡ [] }
    {
        StockRows {
            rows: Vec::new(alloc),
        }
    }

    pub fn as_slice(&self) -> &[StockFound]
        ensures value { result.now ≡ self.now }
        ensures few { copies_of result.now ≤ 1_000 }
    {
        self.rows.as_slice()
    }
}

/// Returns whether the rows list no more than 1,000 copies.
fn are_few(rows: &[StockFound]) -> bool
    ensures { result ≡ nat_le (copies_of rows.now) 1_000 }
{
    let mut copies = 0;
    for row in rows {
        copies += u32::from(row.copies);
        if 1_000 < copies {
            return false;
        }
    }
    true
}

/// Returns how many copies the rows list.
pub fn copies_in(rows: &[StockFound]) -> u32
    requires { copies_of rows.now ≤ 1_000 }
    ensures { result ≡ copies_of rows.now }
{
    let mut copies = 0;
    for row in rows {
        copies += u32::from(row.copies);
    }
    copies
}

/// Returns the rows of the stock file, or no rows if the file has a fault.
pub fn rows_in(stock: &Result<StockRows, BadCsv>) -> &[StockFound]
    ensures films { films_of result.now ≡ films_in (seen_stock stock.now) }
    ensures few { copies_of result.now ≤ 1_000 }
{
    match stock {
        Ok(rows) => rows.as_slice(),
        Err(_) => &[],
    }
}

/// Returns how many copies the stock file makes. If the file has a fault, it makes none.
pub fn new_copies(stock: &Result<StockRows, BadCsv>) -> u32
    ensures value { result ≡ new_in (seen_stock stock.now) }
    ensures bound { result ≤ 1_000 }
{
    match stock {
        Ok(rows) => copies_in(rows.as_slice()),
        Err(_) => 0,
    }
}

/// Returns the first refusal of an import of the stock file. `has_lot` says whether the branch has a lot of the name.
pub fn stock_refusal(stock: &Result<StockRows, BadCsv>, has_lot: bool) -> Option<Refusal>
    ensures { (catalogue : Catalogue) (shop : Shop) (lot : Text) → IfOk stock.now (All (RowAgrees catalogue))
        → has_lot ≡ list_any (bytes_eq lot) shop.lots
        → verdict_by result ≡ Some (first (import_refusals catalogue shop lot (seen_stock stock.now))) }
{
    match stock {
        Ok(rows) => rows_refusal(rows.as_slice(), has_lot),
        Err(_) if has_lot => Some(Refusal::LotIn),
        Err(fault) => Some(Refusal::BadCsv(*fault)),
    }
}

/// Returns the first refusal of an import of the rows.
#[tactic(auto, using(crate::proofs::StockLemmas::any_withdrawn, crate::proofs::StockLemmas::any_unknown))]
fn rows_refusal(rows: &[StockFound], has_lot: bool) -> Option<Refusal>
    ensures { (catalogue : Catalogue) (shop : Shop) (lot : Text) → All (RowAgrees catalogue) rows.now
        → has_lot ≡ list_any (bytes_eq lot) shop.lots
        → verdict_by result ≡ Some (first (import_refusals catalogue shop lot (Copies (films_of rows.now)))) }
{
    if has_withdrawn(rows) {
        Some(Refusal::FilmWithdrawn)
    } else if has_unknown(rows) {
        Some(Refusal::NoFilm)
    } else if has_lot {
        Some(Refusal::LotIn)
    } else {
        None
    }
}

fn has_withdrawn(rows: &[StockFound]) -> bool
    ensures { result ≡ list_any (λ row. row.is_withdrawn) rows.now }
{
    rows.iter().any(|row| row.is_withdrawn)
}

fn has_unknown(rows: &[StockFound]) -> bool
    ensures { result ≡ list_any (λ row. not row.is_there) rows.now }
{
    rows.iter().any(|row| !row.is_there)
}
