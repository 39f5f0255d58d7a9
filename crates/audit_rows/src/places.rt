//! Whether each mark is made, has exactly one place, and goes with one film.

ghost use Rattle.std.specs.Prelude.{◌≡◌, ◌↔◌, ◌++◌, [], ◌∷◌, IsTrue, IfOk, OnOk, map};
ghost use Rattle.std.specs.List.{list_any, list_all};
ghost use Rattle.std.specs.Str.{bytes_eq};
ghost use Rattle.std.specs.Ordering.{nat_cmp};
ghost use Rattle.std.specs.Cmp.Lexicographic.{slice_cmp};
ghost use Rattle.std.specs.List.Sorted.{IsSortedByKey};
ghost use Rattle.shop_model.specs.Sound.{is_origin};
ghost use Rattle.audit_rows.specs.Seen.{seen_copy, seen_line};
ghost use Rattle.shop_types.specs.Seen.{seen_mark, seen_state, seen_line_state};
ghost use Rattle.audit_rows.specs.Marked.{mark_key, film_key, made_keys, is_copy_placed, is_line_placed, AreInCustody, places_are_single, rows_placed, lines_placed};

use crate::books::CheckedCopy;
use crate::order::{Keyed, are_among, are_distinct, has_key, sort_rows};
use crate::rows::{CheckedLine, CheckedRow};
use shop_types::{CopyState, FilmNo, LineState, Mark, NoMemory};
use std::alloc::Global;
use std::cmp::Ordering;

/// A mark as a row whose key it is.
#[derive(Drop)]
struct MarkRow {
    mark: Mark,
}

impl Keyed for MarkRow {
    ghost key = { λ row. mark_key (seen_mark row.mark) };

    fn compare(&self, other: &MarkRow) -> Ordering {
        let first = self.mark.branch.get().cmp(&other.mark.branch.get());
        first.then(self.mark.copy.get().cmp(&other.mark.copy.get()))
    }
}

/// A mark with a film, as a row whose key they are.
#[derive(Drop)]
struct MarkedFilm {
    mark: Mark,
    film: FilmNo,
}

impl Keyed for MarkedFilm {
    ghost key = { λ row. film_key row.film (seen_mark row.mark) };

    fn compare(&self, other: &MarkedFilm) -> Ordering {
        let first = self.mark.branch.get().cmp(&other.mark.branch.get());
        let second = self.mark.copy.get().cmp(&other.mark.copy.get());
        first
            .then(second)
            .then(self.film.get().cmp(&other.film.get()))
    }
}

/// Returns whether the copy's mark was made by its own import.
pub(crate) fn is_origin(row: &CheckedRow<CheckedCopy>) -> bool
    ensures { result ≡ is_origin (seen_copy row.now) }
{
    row.it.mark.branch.get() == row.branch.get() && row.it.mark.copy.get() == row.number
}

/// Collects the marks that were made.
fn marks_made(alloc: Global, copies: &[CheckedRow<CheckedCopy>]) -> Result<Vec<MarkRow>, NoMemory>
    ensures { IfOk result (λ v. map (λ row. mark_key (seen_mark row.mark)) v.items
        ≡ made_keys (map seen_copy copies.now)) }
{
    let mut marks = Vec::new(alloc);
    for row in copies {
        if is_origin(row) {
            if marks.push(MarkRow { mark: row.it.mark }).is_err() {
                return Err(NoMemory);
            }
        }
    }
    Ok(marks)
}

/// Returns whether a copy in this state is a place of its mark.
fn is_copy_placed(state: CopyState) -> bool
    ensures { result ≡ is_copy_placed (seen_state state) }
{
    match state {
        CopyState::Here => true,
        CopyState::Sent => false,
        CopyState::Scrapped => true,
    }
}

/// Returns whether a line in this state is a place of its mark.
fn is_line_placed(state: LineState) -> bool
    ensures { result ≡ is_line_placed (seen_line_state state) }
{
    match state {
        LineState::UnderWay => true,
        LineState::Arrived => false,
        LineState::Missing => true,
    }
}

/// Collects the marks of the copies that are a place of their marks, each with the copy's film.
fn rows_placed(
    alloc: Global,
    copies: &[CheckedRow<CheckedCopy>],
) -> Result<Vec<MarkedFilm>, NoMemory>
    ensures { IfOk result (λ v. map (λ row. film_key row.film (seen_mark row.mark)) v.items
        ≡ rows_placed (map seen_copy copies.now)) }
{
    let mut placed = Vec::new(alloc);
    for row in copies {
        if is_copy_placed(row.it.state) {
            let it = MarkedFilm {
                mark: row.it.mark,
                film: row.it.film,
            };
            if placed.push(it).is_err() {
                return Err(NoMemory);
            }
        }
    }
    Ok(placed)
}

/// Adds the marks of the lines that are a place of their marks, each with the line's film.
fn add_lines_placed(placed: &mut Vec<MarkedFilm>, lines: &[CheckedLine]) -> Result<(), NoMemory>
    ensures { OnOk result (map (λ row. film_key row.film (seen_mark row.mark)) placed.new.items
        ≡ map (λ row. film_key row.film (seen_mark row.mark)) placed.old.items ++ lines_placed
        (map seen_line lines.now)) }
{
    for row in lines {
        if is_line_placed(row.state) {
            let it = MarkedFilm {
                mark: row.mark,
                film: row.film,
            };
            if placed.push(it).is_err() {
                return Err(NoMemory);
            }
        }
    }
    Ok(())
}

/// Returns the marks without their films.
fn marks_of(alloc: Global, placed: &[MarkedFilm]) -> Result<Vec<MarkRow>, NoMemory>
    ensures { IfOk result (λ v. map (λ row. mark_key (seen_mark row.mark)) v.items
        ≡ map (λ row. mark_key (seen_mark row.mark)) placed.now) }
{
    let mut marks = Vec::new(alloc);
    for row in placed {
        if marks.push(MarkRow { mark: row.mark }).is_err() {
            return Err(NoMemory);
        }
    }
    Ok(marks)
}

/// Returns whether `placed` has the mark of each copy, with the copy's film.
fn copies_among(placed: &[MarkedFilm], copies: &[CheckedRow<CheckedCopy>]) -> bool
    requires { IsSortedByKey (λ row. film_key row.film (seen_mark row.mark)) (slice_cmp nat_cmp) placed.now }
    ensures { result
        ≡ list_all (λ row. list_any (bytes_eq (film_key row.it.film row.it.mark))
        (map (λ row. film_key row.film (seen_mark row.mark)) placed.now)) (map seen_copy copies.now) }
{
    for row in copies {
        let wanted = MarkedFilm {
            mark: row.it.mark,
            film: row.it.film,
        };
        if !has_key(placed, &wanted) {
            return false;
        }
    }
    true
}

/// Returns whether `placed` has the mark of each line, with the line's film.
fn lines_among(placed: &[MarkedFilm], lines: &[CheckedLine]) -> bool
    requires { IsSortedByKey (λ row. film_key row.film (seen_mark row.mark)) (slice_cmp nat_cmp) placed.now }
    ensures { result
        ≡ list_all (λ line. list_any (bytes_eq (film_key line.film line.mark))
        (map (λ row. film_key row.film (seen_mark row.mark)) placed.now)) (map seen_line lines.now) }
{
    for row in lines {
        let wanted = MarkedFilm {
            mark: row.mark,
            film: row.film,
        };
        if !has_key(placed, &wanted) {
            return false;
        }
    }
    true
}

/// Returns whether each place belongs to a mark that was made, and no mark has two places.
fn have_one_place(
    alloc: Global,
    copies: &[CheckedRow<CheckedCopy>],
    placed: &[MarkedFilm],
) -> Result<bool, NoMemory>
    ensures { IfOk result (λ is. is
        ≡ places_are_single (made_keys (map seen_copy copies.now))
        (map (λ row. mark_key (seen_mark row.mark)) placed.now)) }
{
    let mut made = marks_made(alloc, copies)?;
    let mut marks = marks_of(alloc, placed)?;
    sort_rows(&mut made);
    Ok(are_among(marks.as_slice(), made.as_slice()) && are_distinct(&mut marks))
}

/// Returns whether each mark of a copy or a line is made, has exactly one place, and belongs to one film.
pub fn are_in_custody(
    alloc: Global,
    copies: &[CheckedRow<CheckedCopy>],
    lines: &[CheckedLine],
) -> Result<bool, NoMemory>
    ensures { IfOk result (λ is. IsTrue is ↔ AreInCustody (map seen_copy copies.now) (map seen_line lines.now)) }
{
    let mut placed = rows_placed(alloc, copies)?;
    add_lines_placed(&mut placed, lines)?;
    if !have_one_place(alloc, copies, placed.as_slice())? {
        return Ok(false);
    }
    sort_rows(&mut placed);
    Ok(copies_among(placed.as_slice(), copies) && lines_among(placed.as_slice(), lines))
}
