//! What was read of a table, in the order of keys or of numbers.

ghost use Rattle.std.specs.Prelude.{◌≡◌, ℕ, [], ◌∷◌, map, IsPermutation, IfOk, IfErr};
ghost use Rattle.std.specs.List.Sorted.{IsSortedByKey};
ghost use Rattle.std.specs.Ordering.{nat_cmp};
ghost use Rattle.audit_rows.specs.Lists.{counts_from};
ghost use Rattle.books_audit.specs.ReadLists.{RowsRead, IsSingle, KeyedRead, AreKeyed, PlacesRead, AreInPlaces};
ghost use Rattle.books_audit.specs.Tables.{rows_in};

use crate::listed::{Listed, read_rows};
use crate::shared::SharedRow;
use crate::tables::TableRows;
use audit_rows::{Keyed, climbs, sort_rows};
use shop_types::NoMemory;
use std::alloc::Global;

/// Why tables weren't read: memory ran out, or the tables stand for no books.
#[derive(Clone, Copy, Drop)]
pub(crate) enum Unread {
    Memory,
    NoBooks,
}

impl From<NoMemory> for Unread {
    ghost use Rattle.books_audit.specs.declared.lists.Unread.TheVariants.{Memory};

    ghost from_gives = { λ _ e. e ≡ Memory };

    fn from(_: NoMemory) -> Unread {
        Unread::Memory
    }
}

/// Reads the only row of the table at the place. There are no books if the table has no row or several rows, or its row
/// isn't one of the table's.
pub(crate) fn read_one<T: Listed>(
    alloc: Global,
    tables: &TableRows,
    place: usize,
) -> Result<T, Unread>
    ensures read { IfOk result (λ one. RowsRead T.Listed.is_row (rows_in tables.now place) (one ∷ [])) }
    ensures none { IfErr result (λ e. e ≡ Unread.NoBooks → ¬ IsSingle T.Listed.is_row (rows_in tables.now place)) }
{
    let Some(mut all) = read_rows::<T>(alloc, tables.of(place))? else {
        return Err(Unread::NoBooks);
    };
    let Some(one) = all.pop() else {
        return Err(Unread::NoBooks);
    };
    if !all.is_empty() {
        return Err(Unread::NoBooks);
    }
    Ok(one)
}

/// Reads the rows of the table at the place, in the order of their keys. There are no books if a row isn't one of the
/// table's, or two rows have the same key.
pub(crate) fn read_keyed<T: Listed + Keyed>(
    alloc: Global,
    tables: &TableRows,
    place: usize,
) -> Result<Vec<T>, Unread>
    ensures read { IfOk result (λ all. KeyedRead T.Listed.is_row T.Keyed.key (rows_in tables.now place) all.items) }
    ensures none { IfErr result
        (λ e. e ≡ Unread.NoBooks → ¬ AreKeyed T.Listed.is_row T.Keyed.key (rows_in tables.now place)) }
{
    let Some(mut all) = read_rows::<T>(alloc, tables.of(place))? else {
        return Err(Unread::NoBooks);
    };
    sort_rows(&mut all);
    if !climbs(all.as_slice()) {
        return Err(Unread::NoBooks);
    }
    Ok(all)
}

/// A value that is kept of a shared row, with the row's number, which is its place.
pub(crate) trait Shared: Sized + Drop {
    type Kept: Drop;

    ghost place: { Self → ℕ };

    // what is kept of the row, without its number
    ghost keep: { Self → Self.Kept };

    fn place(&self) -> u32
        ensures { result ≡ place self.now };

    fn keep(self) -> Self::Kept
        ensures { result ≡ keep self };
}

impl<T: Drop> Shared for SharedRow<T> {
    type Kept = T;

    ghost place = { λ row. row.number };

    ghost keep = { λ row. row.it };

    fn place(&self) -> u32 {
        self.number
    }

    fn keep(self) -> T {
        self.it
    }
}

/// Puts the rows in the order of their numbers.
fn sort_places<T: Shared>(rows: &mut Vec<T>)
    ensures permutation { IsPermutation rows.old.items rows.new.items }
    ensures sorted { IsSortedByKey T.Shared.place nat_cmp rows.new.items }
{
    rows.sort_unstable_by(|a, b| a.place().cmp(&b.place()));
}

/// Returns whether the rows are numbered 1, 2, ..
fn are_placed<T: Shared>(rows: &[T]) -> bool
    ensures { result ≡ counts_from 1 (map T.Shared.place rows.now) }
{
    let mut next = 1u64;
    for row in rows {
        if u64::from(row.place()) != next {
            return false;
        }
        next += 1;
    }
    true
}

/// Returns what is kept of the rows, without their numbers.
fn keep_all<T: Shared>(alloc: Global, rows: Vec<T>) -> Result<Vec<T::Kept>, NoMemory>
    ensures { IfOk result (λ all. map T.Shared.keep rows.items ≡ all.items) }
{
    let mut all = Vec::new(alloc);
    for row in rows {
        if all.push(row.keep()).is_err() {
            return Err(NoMemory);
        }
    }
    Ok(all)
}

/// Reads the shared rows of the table at the place, in the order of their numbers. There are no books if a row isn't
/// one of the table's, or the rows aren't numbered 1, 2, ..
pub(crate) fn read_shared<T: Listed + Shared>(
    alloc: Global,
    tables: &TableRows,
    place: usize,
) -> Result<Vec<T::Kept>, Unread>
    ensures read { IfOk result
        (λ all. PlacesRead T.Listed.is_row T.Shared.place T.Shared.keep (rows_in tables.now place) all.items) }
    ensures none { IfErr result
        (λ e. e ≡ Unread.NoBooks → ¬ AreInPlaces T.Listed.is_row T.Shared.place (rows_in tables.now place)) }
{
    let rows = tables.of(place);
    if rows.len() > 4_294_967_295 {
        return Err(Unread::NoBooks);
    }
    let Some(mut all) = read_rows::<T>(alloc, rows)? else {
        return Err(Unread::NoBooks);
    };
    sort_places(&mut all);
    if !are_placed(all.as_slice()) {
        return Err(Unread::NoBooks);
    }
    Ok(keep_all(alloc, all)?)
}
