//! Where a mark is.

ghost use Rattle.std.specs.Prelude.{◌≡◌};
ghost use Rattle.std.specs.List.{find};
ghost use Rattle.sql_rows.specs.Calls.{DoesInside};
ghost use Rattle.shop_model.specs.Machine.{Shows};
ghost use Rattle.shop_model.specs.Office.{place_of};
ghost use Rattle.shop_ledger.specs.Calls.{Finds};
ghost use Rattle.shop_types.specs.Seen.{seen_mark, seen_place};
ghost use Rattle.consign_store.specs.Custody.{is_here, is_under_way, HasOnePlace};

use crate::lines::LineRow;
use crate::marks::{copies_marked, lines_marked};
use shop_store::copies::CopyRow;
use shop_types::{CopyState, LineState, Mark, Place};
use sql_rows::StoreFault;
use sqlite::{Alter, Transaction};
use std::alloc::Global;

fn is_copy_here(row: &CopyRow) -> bool
    ensures { result ≡ is_here row.now }
{
    matches!(row.state, CopyState::Here)
}

/// Returns the first copy that is here.
fn first_here(rows: &[CopyRow]) -> Option<CopyRow>
    ensures { result ≡ find is_here rows.now }
{
    rows.iter().copied().find(|row| is_copy_here(row))
}

fn is_line_under_way(row: &LineRow) -> bool
    ensures { result ≡ is_under_way row.now }
{
    matches!(row.state, LineState::UnderWay)
}

/// Returns the first line that is under way.
fn first_under_way(rows: &[LineRow]) -> Option<LineRow>
    ensures { result ≡ find is_under_way rows.now }
{
    rows.iter().copied().find(|row| is_line_under_way(row))
}

/// Returns where the mark is. At most one copy with the mark may be here, and at most one line with it under way. After
/// a fault the transaction may be rolled back.
pub fn place_of<S: Alter>(
    alloc: Global,
    tx: &mut Transaction<'_, S>,
    mark: &Mark,
) -> Result<Place, StoreFault>
    ensures { DoesInside S.Store tx.old.conn tx.new.conn result
        (λ place. Finds (λ books. HasOnePlace (seen_mark mark.now) books
        → Shows (seen_place place) ≡ place_of (seen_mark mark.now) books)) }
{
    let copies = copies_marked(alloc, tx, mark)?;
    if let Some(row) = first_here(copies.as_slice()) {
        return Ok(Place::Here {
            branch: row.branch,
            copy: row.number,
        });
    }
    let lines = lines_marked(alloc, tx, mark)?;
    match first_under_way(lines.as_slice()) {
        Some(line) => Ok(Place::Transit {
            from: line.key.source,
            to: line.key.addressee,
            number: line.key.number,
        }),
        None => Ok(Place::Gone),
    }
}
