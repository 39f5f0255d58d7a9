//! Order, numbers and doubles.

ghost use Rattle.std.specs.Prelude.{◌≡◌, ◌↔◌, IsTrue, ℕ, List, map, IsPermutation};
ghost use Rattle.std.specs.List.{list_any, list_all};
ghost use Rattle.std.specs.List.Sorted.{IsSortedByKey};
ghost use Rattle.std.specs.Ordering.{nat_cmp};
ghost use Rattle.std.specs.Cmp.Lexicographic.{slice_cmp};
ghost use Rattle.std.specs.Str.{bytes_eq};
ghost use Rattle.shop_model.specs.Links.{are_different};
ghost use Rattle.audit_rows.specs.Lists.{climbs, counts_from, same_lists, SameCounts};

use std::cmp::Ordering;

/// A row with a key.
pub trait Keyed: Sized + Drop {
    // the columns of the row that make its key, as numbers; a text comes last, as its bytes
    ghost key: { Self → List ℕ };

    /// Compares the keys.
    fn compare(&self, other: &Self) -> Ordering
        ensures { result ≡ slice_cmp nat_cmp (key self.now) (key other.now) };
}

/// A row with a number.
pub trait Numbered: Sized + Drop {
    ghost number: { Self → ℕ };

    /// Returns the row's number.
    fn number(&self) -> u32
        ensures { result ≡ number self.now };
}

/// Puts the rows in the order of their keys. It takes no memory.
pub fn sort_rows<T: Keyed>(rows: &mut Vec<T>)
    ensures permutation { IsPermutation rows.old.items rows.new.items }
    ensures sorted { IsSortedByKey T.key (slice_cmp nat_cmp) rows.new.items }
{
    rows.sort_unstable_by(|a, b| a.compare(b));
}

/// Returns whether each key is above the one before it.
pub fn climbs<T: Keyed>(rows: &[T]) -> bool
    ensures { result ≡ climbs (map T.key rows.now) }
{
    let Some((first, rest)) = rows.split_first() else {
        return true;
    };
    let mut last = first;
    for row in rest {
        if last.compare(row) != Ordering::Less {
            return false;
        }
        last = row;
    }
    true
}

/// Returns whether no two of the rows have the same key.
pub fn are_distinct<T: Keyed>(rows: &mut Vec<T>) -> bool
    ensures permutation { IsPermutation rows.old.items rows.new.items }
    ensures distinct { result ≡ are_different (λ a b. bytes_eq (T.key a) (T.key b)) rows.old.items }
{
    sort_rows(rows);
    climbs(rows.as_slice())
}

/// Returns whether one of the rows, which are in the order of their keys, has the key of this one.
pub fn has_key<T: Keyed>(rows: &[T], wanted: &T) -> bool
    requires { IsSortedByKey T.key (slice_cmp nat_cmp) rows.now }
    ensures { result ≡ list_any (bytes_eq (T.key wanted.now)) (map T.key rows.now) }
{
    rows.binary_search_by(|row| row.compare(wanted)).is_ok()
}

/// Returns whether each row's key is a key of `others`, which are in the order of their keys.
pub fn are_among<T: Keyed>(rows: &[T], others: &[T]) -> bool
    requires { IsSortedByKey T.key (slice_cmp nat_cmp) others.now }
    ensures { result ≡ list_all (λ row. list_any (bytes_eq (T.key row)) (map T.key others.now)) rows.now }
{
    for row in rows {
        if !has_key(others, row) {
            return false;
        }
    }
    true
}

/// Returns whether the two have the same key.
fn is_same<T: Keyed>(a: &T, b: &T) -> bool
    ensures { result ≡ bytes_eq (T.key a.now) (T.key b.now) }
{
    a.compare(b) == Ordering::Equal
}

/// Returns whether the two have the same keys, one after another.
fn same_keys<T: Keyed>(a: &[T], b: &[T]) -> bool
    ensures { result ≡ same_lists (map T.key a.now) (map T.key b.now) }
{
    let mut rest = b;
    for row in a {
        let Some((first, more)) = rest.split_first() else {
            return false;
        };
        if !is_same(row, first) {
            return false;
        }
        rest = more;
    }
    rest.is_empty()
}

/// Returns whether the two have the same keys, each as often, in whatever order.
pub fn same_bag<T: Keyed>(a: &mut Vec<T>, b: &mut Vec<T>) -> bool
    ensures { IsTrue result ↔ SameCounts (map T.key a.old.items) (map T.key b.old.items) }
{
    sort_rows(a);
    sort_rows(b);
    same_keys(a.as_slice(), b.as_slice())
}

/// Returns whether the rows are numbered 1, 2, ..
pub fn are_counted<T: Numbered>(rows: &[T]) -> bool
    ensures { result ≡ counts_from 1 (map T.number rows.now) }
{
    let mut next = 1u64;
    for row in rows {
        if u64::from(row.number()) != next {
            return false;
        }
        next += 1;
    }
    true
}

/// Returns whether the numbers are 1, 2, ..
pub fn counts(numbers: &[u64]) -> bool
    ensures { result ≡ counts_from 1 numbers.now }
{
    let mut next = 1u64;
    for number in numbers {
        if *number != next {
            return false;
        }
        next += 1;
    }
    true
}
