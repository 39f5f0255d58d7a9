//! Finds customers, copies and rentals.

ghost use Rattle.std.specs.Prelude.{◌≡◌, ℕ, is_some, map, option_map, option_to_list, not, IfSome};
ghost use Rattle.sql_rows.specs.Calls.{DoesWithin};
ghost use Rattle.sql_rows.specs.Causes.{FailsByFaults};
ghost use Rattle.shop_model.specs.Rows.{at, lacks};
ghost use Rattle.shop_model.specs.Stock.{is_here, held_by};
ghost use Rattle.shop_model.specs.Books.{head, shop_of};
ghost use Rattle.shop_ledger.specs.Calls.{Finds};
ghost use Rattle.shop_schema.specs.Asked.{HoldsBooks};
ghost use Rattle.branch_finds.specs.Finds.{Knows, copy_shown};
ghost use Rattle.consign_finds.specs.Finds.{open_from};
ghost use Rattle.branch_core.specs.Agreed.{copy_at, rental_at, seen_copy, seen_rental, seen_film_copy, AreOfFilm, HasTermsNow, active_at};

use crate::known::find_film;
use branch_core::{CopyFound, FilmCopy, RentalFound};
use chain_caches::FilmCache;
use shop_ledger::out_at;
use shop_store::copies::{CopyRow, copies_of_film, copy_now_at};
use shop_store::customers::active_at;
use shop_store::rentals::rental_at;
use shop_store::rows::has_city;
use shop_types::{
    BranchNo, CityNo, CopyNo, CopyState, CustomerNo, FilmNo, Rental, RentalNo, is_here,
};
use sql_rows::StoreFault;
use sqlite::{Alter, Transaction};
use std::alloc::Global;

/// Finds whether the city that is named is there.
pub fn find_city<S: Alter>(
    tx: &mut Transaction<'_, S>,
    city: Option<CityNo>,
) -> Result<bool, StoreFault>
    ensures { DoesWithin S.Store tx.old.conn tx.new.conn result
        (λ has. Finds (λ books. IfSome city (λ n. has ≡ not (lacks books.catalogue.cities n)))) }
{
    match city {
        Some(city) => has_city(tx, city),
        None => Ok(false),
    }
}

/// Finds whether the customer who is named may rent, if the branch has a customer of the number.
pub fn find_customer<S: Alter>(
    tx: &mut Transaction<'_, S>,
    branch: BranchNo,
    customer: Option<CustomerNo>,
) -> Result<Option<bool>, StoreFault>
    ensures { DoesWithin S.Store tx.old.conn tx.new.conn result
        (λ active. Finds (λ books. IfSome customer (λ c. active ≡ active_at c (shop_of branch books)))) }
{
    match customer {
        Some(customer) => active_at(tx, branch, customer),
        None => Ok(None),
    }
}

/// Finds the copy that is named, if the branch has a copy of the number: whether it is in the shop, whether its film is
/// withdrawn, and whether it is out. Also finds its film's terms as they are now. Fails if there is no row of the film,
/// which no sound table lacks.
pub fn find_copy<S: Alter>(
    tx: &mut Transaction<'_, S>,
    films: &mut FilmCache,
    branch: BranchNo,
    copy: Option<CopyNo>,
) -> Result<Option<CopyFound>, StoreFault>
    ensures { DoesWithin S.Store tx.old.conn tx.new.conn result
        (λ found. Finds (Knows films.old films.new (λ books. IfSome copy
        (λ x. option_map seen_copy found ≡ copy_at books.catalogue (shop_of branch books) x)
        × IfSome copy (λ x. HasTermsNow books.catalogue (shop_of branch books) x found)))) }
{
    let Some(copy) = copy else {
        return Ok(None);
    };
    let Some(row) = copy_now_at(tx, branch, copy)? else {
        return Ok(None);
    };
    let Some(film) = find_film(tx, films, row.film)? else {
        return Err(StoreFault::Failed);
    };
    Ok(Some(CopyFound {
        is_here: is_here(row.state),
        is_withdrawn: film.withdrawn,
        is_out: row.out.is_some(),
        terms: film.terms,
    }))
}

/// Finds the rental that is named, if the branch has a rental of the number.
pub fn find_rental<S: Alter>(
    tx: &mut Transaction<'_, S>,
    branch: BranchNo,
    rental: Option<RentalNo>,
) -> Result<Option<RentalFound>, StoreFault>
    ensures { DoesWithin S.Store tx.old.conn tx.new.conn result
        (λ found. Finds (λ books. IfSome rental
        (λ r. option_map seen_rental found ≡ rental_at (shop_of branch books) r))) }
{
    let Some(rental) = rental else {
        return Ok(None);
    };
    match rental_at(tx, branch, rental)? {
        Some(row) => Ok(Some(rental_found(row.rental))),
        None => Ok(None),
    }
}

/// Returns what a decision reads of a rental.
fn rental_found(rental: Rental) -> RentalFound
    ensures { seen_rental result ≡ (rental.customer, rental.copy, is_some rental.returned) }
{
    let is_returned = rental.returned.is_some();
    RentalFound {
        customer: rental.customer,
        copy: rental.copy,
        is_returned,
    }
}

/// Finds the customer of the rental, if the branch has the rental.
fn find_renter<S: Alter>(
    tx: &mut Transaction<'_, S>,
    branch: BranchNo,
    rental: RentalNo,
) -> Result<Option<CustomerNo>, StoreFault>
    ensures does { DoesWithin S.Store tx.old.conn tx.new.conn result
        (λ renter. Finds (λ books. renter
        ≡ head (map (λ it. it.customer) (at rental (shop_of branch books).rentals)))) }
    ensures fails { FailsByFaults S.Store tx.old.conn tx.new.conn result HoldsBooks }
{
    match rental_at(tx, branch, rental) {
        Ok(Some(row)) => Ok(Some(row.rental.customer)),
        Ok(None) => Ok(None),
        Err(fault) => Err(fault),
    }
}

/// Finds the customer who has a copy that is out by the given rental. Finds nobody if no rental is given.
pub fn find_holder<S: Alter>(
    tx: &mut Transaction<'_, S>,
    branch: BranchNo,
    out: Option<RentalNo>,
) -> Result<Option<CustomerNo>, StoreFault>
    ensures does { DoesWithin S.Store tx.old.conn tx.new.conn result
        (λ holder old new. (copy : ℕ) → Finds (λ books. option_to_list out
        ≡ open_from 1 copy (shop_of branch books).rentals → holder
        ≡ head (held_by copy (shop_of branch books).rentals)) old new) }
    ensures fails { FailsByFaults S.Store tx.old.conn tx.new.conn result HoldsBooks }
{
    match out {
        Some(rental) => find_renter(tx, branch, rental),
        None => Ok(None),
    }
}

/// Finds the branch's copies of the film, in order of number.
pub fn find_of_film<S: Alter>(
    alloc: Global,
    tx: &mut Transaction<'_, S>,
    branch: BranchNo,
    film: FilmNo,
) -> Result<Vec<FilmCopy>, StoreFault>
    ensures does { DoesWithin S.Store tx.old.conn tx.new.conn result
        (λ copies. Finds (λ books. AreOfFilm film (shop_of branch books) copies.items)) }
    ensures fails { FailsByFaults S.Store tx.old.conn tx.new.conn result HoldsBooks }
{
    let rows = match copies_of_film(alloc, tx, branch, film) {
        Ok(rows) => rows,
        Err(fault) => return Err(fault),
    };
    with_stock(alloc, tx, branch, rows.as_slice())
}

/// Returns the copies of the rows, each with whether it is in stock.
fn with_stock<S: Alter>(
    alloc: Global,
    tx: &mut Transaction<'_, S>,
    branch: BranchNo,
    rows: &[CopyRow],
) -> Result<Vec<FilmCopy>, StoreFault>
    ensures does { DoesWithin S.Store tx.old.conn tx.new.conn result
        (λ copies. Finds (λ books. map seen_film_copy copies.items
        ≡ map (copy_shown (shop_of branch books).rentals) rows.now)) }
    ensures fails { FailsByFaults S.Store tx.old.conn tx.new.conn result HoldsBooks }
{
    let mut copies = Vec::new(alloc);
    for row in rows {
        let copy = match with_its_stock(tx, branch, *row) {
            Ok(copy) => copy,
            Err(fault) => return Err(fault),
        };
        copies.push(copy)?;
    }
    Ok(copies)
}

/// Returns the copy of the row, with whether it is in stock.
fn with_its_stock<S: Alter>(
    tx: &mut Transaction<'_, S>,
    branch: BranchNo,
    row: CopyRow,
) -> Result<FilmCopy, StoreFault>
    ensures does { DoesWithin S.Store tx.old.conn tx.new.conn result
        (λ copy. Finds (λ books. seen_film_copy copy ≡ copy_shown (shop_of branch books).rentals row)) }
    ensures fails { FailsByFaults S.Store tx.old.conn tx.new.conn result HoldsBooks }
{
    match out_at(tx, branch, row.number) {
        Ok(out) => Ok(FilmCopy {
            number: row.number,
            is_here: is_here(row.state),
            is_in_stock: out.is_none(),
        }),
        Err(fault) => Err(fault),
    }
}
