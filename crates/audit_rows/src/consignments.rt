//! Whether consignments are sound, over the rows of their two tables in the order of the keys.

ghost use Rattle.std.specs.Prelude.{◌≡◌, ◌&&◌, ◌==◌, ◌+◌, ◌++◌, true, false, not, nat_lt, nat_le, IfOk, ℕ, List, map, length, IsPermutation, if◌then◌else◌};
ghost use Rattle.std.specs.List.{list_all};
ghost use Rattle.std.specs.List.Sorted.{IsSorted};
ghost use Rattle.std.specs.Ordering.{nat_cmp};
ghost use Rattle.audit_rows.specs.Lists.{counts_from};
ghost use Rattle.audit_rows.specs.Seen.{seen_header, seen_placed, seen_line};
ghost use Rattle.audit_rows.specs.Consignments.{is_good_line, are_good_lines, are_settled, follows, pairs_follow};

use crate::{CheckedHeader, CheckedLine, counts, is_among, split_group};
use shop_types::{LineState, NoMemory};
use std::alloc::Global;

/// Returns whether the line is under way or not, as it has to be, and its film is one of so many.
fn is_good_line(films: usize, received: bool, row: &CheckedLine) -> bool
    ensures { result ≡ is_good_line films received (seen_line row.now) }
{
    let settled = match row.state {
        LineState::UnderWay => !received,
        LineState::Arrived => received,
        LineState::Missing => received,
    };
    settled && is_among(films, row.film.get())
}

/// Returns whether each line is as it has to be.
fn are_all_good(films: usize, received: bool, lines: &[CheckedLine]) -> bool
    ensures { result ≡ list_all (is_good_line films received) (map seen_line lines.now) }
{
    for row in lines {
        if !is_good_line(films, received, row) {
            return false;
        }
    }
    true
}

/// Returns whether the lines are 1 to 100, and each is as it has to be.
fn are_good_lines(films: usize, received: bool, lines: &[CheckedLine]) -> bool
    ensures { result ≡ are_good_lines films received (map seen_line lines.now) }
{
    0 < lines.len() && lines.len() <= 100 && are_all_good(films, received, lines)
}

/// Returns whether each consignment has 1 to 100 lines, whose films are there. If the consignment is received, no line
/// of the consignment may be under way. Otherwise all its lines must be under way.
pub fn are_settled(films: usize, headers: &[CheckedHeader], lines: &[CheckedLine]) -> bool
    ensures { result ≡ are_settled films (map seen_header headers.now) (map seen_placed lines.now) }
{
    let mut rest = lines;
    for header in headers {
        let key = [header.source.get(), header.addressee.get(), header.number];
        let (own, more) = split_group(rest, key.as_slice());
        if !are_good_lines(films, header.received, own) {
            return false;
        }
        rest = more;
    }
    true
}

fn places_of(alloc: Global, headers: &[CheckedHeader]) -> Result<Vec<u64>, NoMemory>
    ensures { IfOk result (λ v. v.items ≡ map (λ row. row.place) headers.now) }
{
    let mut places = Vec::new(alloc);
    for row in headers {
        if places.push(row.place).is_err() {
            return Err(NoMemory);
        }
    }
    Ok(places)
}

/// Returns whether the places are 1, 2, .. in their order.
pub fn places_count(alloc: Global, headers: &[CheckedHeader]) -> Result<bool, NoMemory>
    ensures { IfOk result (λ is. (places : List ℕ) → IsPermutation (map (λ row. row.place) headers.now) places
        → IsSorted nat_cmp places → is ≡ counts_from 1 places) }
{
    let mut places = places_of(alloc, headers)?;
    places.sort_unstable();
    Ok(counts(places.as_slice()))
}

/// Returns whether the consignment comes next.
fn follows(last: &CheckedHeader, row: &CheckedHeader) -> bool
    ensures { result ≡ follows (seen_header last.now) (seen_header row.now) }
{
    if last.source.get() == row.source.get() && last.addressee.get() == row.addressee.get() {
        u64::from(row.number) == u64::from(last.number) + 1 && last.place < row.place
    } else {
        row.number == 1
    }
}

/// Returns whether each sender's consignments to each addressee are numbered 1, 2, .. in the order of their places.
pub fn pairs_follow(headers: &[CheckedHeader]) -> bool
    ensures { result ≡ pairs_follow (map seen_header headers.now) }
{
    let Some((first, rest)) = headers.split_first() else {
        return true;
    };
    if first.number != 1 {
        return false;
    }
    let mut last = first;
    for row in rest {
        if !follows(last, row) {
            return false;
        }
        last = row;
    }
    true
}
