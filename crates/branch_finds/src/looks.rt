//! Answers a branch's readings of its rows inside one transaction. Nothing is changed.

ghost use Rattle.std.specs.Prelude.{◌≡◌, ℕ, IfOk, string_bytes};
ghost use Rattle.sql_rows.specs.Calls.{DoesInside};
ghost use Rattle.sql_rows.specs.Causes.{FailsByFaults};
ghost use Rattle.shop_model.specs.Values.{OneCustomer, OneFilm, InStock, HeldBy};
ghost use Rattle.shop_model.specs.Shop.{Shop};
ghost use Rattle.shop_model.specs.Machine.{CopiesAre};
ghost use Rattle.shop_model.specs.Answers.{shown_text};
ghost use Rattle.shop_types.specs.Replies.{seen_reply};
ghost use Rattle.shop_schema.specs.Asked.{HoldsBooks};
ghost use Rattle.branch_core.specs.Agreed.{AreOfFilm};
ghost use Rattle.branch_finds.specs.Looks.{stock_asked, stock_listed};
ghost use Rattle.branch_reports.specs.Looked.{Tells};
ghost use Rattle.branch_reports.specs.Told.{IsDecision};

use crate::finds::{find_holder, find_of_film};
use branch_core::{FilmCopy, film_in_stock, film_not_in_stock};
use shop_store::copies::copy_now_at;
use shop_store::customers::customer_at;
use shop_store::films::{film_row, film_withdrawn};
use shop_types::{BranchNo, CopyNo, CustomerNo, FilmNo, NoMemory, Refusal, Reply};
use shop_views::{copies_text, customer_text, film_text, holder_text, in_stock_text};
use sql_rows::StoreFault;
use sqlite::{Alter, Transaction};
use std::alloc::Global;

/// Shows a customer.
pub(crate) fn look_customer<S: Alter>(
    alloc: Global,
    tx: &mut Transaction<'_, S>,
    branch: BranchNo,
    number: CustomerNo,
) -> Result<Reply, StoreFault>
    ensures does { DoesInside S.Store tx.old.conn tx.new.conn result (Tells branch (OneCustomer number)) }
    ensures decided { IfOk result (λ reply. IsDecision (seen_reply reply)) }
    ensures fails { FailsByFaults S.Store tx.old.conn tx.new.conn result HoldsBooks }
{
    match customer_at(tx, branch, number) {
        Ok(Some(row)) => Ok(Reply::accepted(customer_text(alloc, number, &row.customer)?)),
        Ok(None) => Ok(Reply::refused(Refusal::NoCustomer)),
        Err(fault) => Err(fault),
    }
}

/// Shows a film, which may be withdrawn. The reply doesn't depend on the branch that asks.
pub(crate) fn look_film<S: Alter>(
    alloc: Global,
    tx: &mut Transaction<'_, S>,
    branch: BranchNo,
    number: FilmNo,
) -> Result<Reply, StoreFault>
    ensures does { DoesInside S.Store tx.old.conn tx.new.conn result (Tells branch (OneFilm number)) }
    ensures decided { IfOk result (λ reply. IsDecision (seen_reply reply)) }
    ensures fails { FailsByFaults S.Store tx.old.conn tx.new.conn result HoldsBooks }
{
    match film_row(tx, number) {
        Ok(Some(row)) => Ok(Reply::accepted(film_text(alloc, number, &row.film, row.withdrawn)?)),
        Ok(None) => Ok(Reply::refused(Refusal::NoFilm)),
        Err(fault) => Err(fault),
    }
}

/// Shows whether a copy is in stock.
pub(crate) fn look_in_stock<S: Alter>(
    alloc: Global,
    tx: &mut Transaction<'_, S>,
    branch: BranchNo,
    copy: CopyNo,
) -> Result<Reply, StoreFault>
    ensures does { DoesInside S.Store tx.old.conn tx.new.conn result (Tells branch (InStock copy)) }
    ensures decided { IfOk result (λ reply. IsDecision (seen_reply reply)) }
    ensures fails { FailsByFaults S.Store tx.old.conn tx.new.conn result HoldsBooks }
{
    match copy_now_at(tx, branch, copy) {
        Ok(Some(found)) => Ok(Reply::accepted(in_stock_text(alloc, found.out.is_none())?)),
        Ok(None) => Ok(Reply::refused(Refusal::NoCopy)),
        Err(fault) => Err(fault),
    }
}

/// Shows which customer has a copy.
pub(crate) fn look_holder<S: Alter>(
    alloc: Global,
    tx: &mut Transaction<'_, S>,
    branch: BranchNo,
    copy: CopyNo,
) -> Result<Reply, StoreFault>
    ensures does { DoesInside S.Store tx.old.conn tx.new.conn result (Tells branch (HeldBy copy)) }
    ensures decided { IfOk result (λ reply. IsDecision (seen_reply reply)) }
    ensures fails { FailsByFaults S.Store tx.old.conn tx.new.conn result HoldsBooks }
{
    let found = match copy_now_at(tx, branch, copy) {
        Ok(Some(found)) => found,
        Ok(None) => return Ok(Reply::refused(Refusal::NoCopy)),
        Err(fault) => return Err(fault),
    };
    let holder = match find_holder(tx, branch, found.out) {
        Ok(holder) => holder,
        Err(fault) => return Err(fault),
    };
    Ok(Reply::accepted(holder_text(alloc, holder)?))
}

/// Lists the copies of a film that are here and in stock, or here and not in stock.
pub(crate) fn look_film_copies<S: Alter>(
    alloc: Global,
    tx: &mut Transaction<'_, S>,
    branch: BranchNo,
    film: FilmNo,
    is_in: bool,
) -> Result<Reply, StoreFault>
    ensures does { DoesInside S.Store tx.old.conn tx.new.conn result (Tells branch (stock_asked is_in film)) }
    ensures decided { IfOk result (λ reply. IsDecision (seen_reply reply)) }
    ensures fails { FailsByFaults S.Store tx.old.conn tx.new.conn result HoldsBooks }
{
    match film_withdrawn(tx, film) {
        Ok(Some(_)) => {}
        Ok(None) => return Ok(Reply::refused(Refusal::NoFilm)),
        Err(fault) => return Err(fault),
    }
    let copies = match find_of_film(alloc, tx, branch, film) {
        Ok(copies) => copies,
        Err(fault) => return Err(fault),
    };
    match listed_text(alloc, copies.as_slice(), is_in) {
        Ok(text) => Ok(Reply::accepted(text)),
        Err(_) => Err(StoreFault::Memory),
    }
}

/// Returns the body that lists the copies that are here and in stock, or here and not in stock.
fn listed_text(alloc: Global, copies: &[FilmCopy], is_in: bool) -> Result<String, NoMemory>
    ensures { IfOk result (λ text. (film : ℕ) (shop : Shop) → AreOfFilm film shop copies.now
        → string_bytes text ≡ shown_text (CopiesAre (stock_listed is_in film shop))) }
{
    let numbers = if is_in {
        film_in_stock(alloc, copies)?
    } else {
        film_not_in_stock(alloc, copies)?
    };
    Ok(copies_text(alloc, numbers.as_slice())?)
}
