//! How many marks were made, and how many places they have.

ghost use Rattle.std.specs.Prelude.{◌≡◌, ◌≤◌, map, length};
ghost use Rattle.shop_model.specs.Sound.{copy_is, line_is, rows_made, rows_in, lines_in};
ghost use Rattle.audit_rows.specs.Seen.{seen_copy, seen_line};
ghost use Rattle.shop_types.specs.Seen.{seen_state, seen_line_state};
ghost use Rattle.audit_rows.specs.Marked.{any_mark};

use crate::books::CheckedCopy;
use crate::places::is_origin;
use crate::rows::{CheckedLine, CheckedRow};
use shop_types::{CopyState, LineState};

fn same_state(state: CopyState, wanted: CopyState) -> bool
    ensures { result ≡ copy_is (seen_state state) (seen_state wanted) }
{
    match (state, wanted) {
        (CopyState::Here, CopyState::Here) => true,
        (CopyState::Sent, CopyState::Sent) => true,
        (CopyState::Scrapped, CopyState::Scrapped) => true,
        _ => false,
    }
}

fn same_line_state(state: LineState, wanted: LineState) -> bool
    ensures { result ≡ line_is (seen_line_state state) (seen_line_state wanted) }
{
    match (state, wanted) {
        (LineState::UnderWay, LineState::UnderWay) => true,
        (LineState::Arrived, LineState::Arrived) => true,
        (LineState::Missing, LineState::Missing) => true,
        _ => false,
    }
}

/// Counts the marks that were made.
pub fn copies_made(copies: &[CheckedRow<CheckedCopy>]) -> u64
    ensures counted { result ≡ rows_made any_mark (map seen_copy copies.now) }
    ensures fits { result ≤ length copies.now }
{
    let mut made = 0;
    for row in copies {
        if is_origin(row) {
            made += 1;
        }
    }
    made
}

/// Counts the copies in the state.
pub fn copies_under(state: CopyState, copies: &[CheckedRow<CheckedCopy>]) -> u64
    ensures counted { result ≡ rows_in (seen_state state) any_mark (map seen_copy copies.now) }
    ensures fits { result ≤ length copies.now }
{
    let mut found = 0;
    for row in copies {
        if same_state(row.it.state, state) {
            found += 1;
        }
    }
    found
}

/// Counts the lines in the state.
pub fn lines_under(state: LineState, lines: &[CheckedLine]) -> u64
    ensures counted { result ≡ lines_in (seen_line_state state) any_mark (map seen_line lines.now) }
    ensures fits { result ≤ length lines.now }
{
    let mut found = 0;
    for row in lines {
        if same_line_state(row.state, state) {
            found += 1;
        }
    }
    found
}
