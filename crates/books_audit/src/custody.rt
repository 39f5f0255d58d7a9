//! The audit of custody.

ghost use Rattle.std.specs.Prelude.{◌≡◌, IfOk, map};
ghost use Rattle.sql_rows.specs.Calls.{DoesInside};
ghost use Rattle.sql_rows.specs.Causes.{FailsByFaults};
ghost use Rattle.sql_rows.specs.Rows.{columns_of};
ghost use Rattle.shop_schema.specs.Shop.{IsShop};
ghost use Rattle.audit_rows.specs.Seen.{seen_copy, seen_line};
ghost use Rattle.books_audit.specs.Audited.{AuditsRows, CountsCustody, IsCustodyAudit};

use crate::listed::read_rows;
use crate::tables::{COPIES_TEXT, LINES_TEXT, read_whole};
use audit_rows::books::CheckedCopy;
use audit_rows::{CheckedLine, CheckedRow, are_in_custody, copies_made, copies_under, lines_under};
use shop_types::{Audit, CopyState, LineState, NoMemory};
use sql_rows::StoreFault;
use sqlite::{Alter, Row, Transaction};
use std::alloc::Global;

/// The audit of rows that can't be read: not sound, and nothing counted.
pub(crate) const NOTHING: Audit = Audit {
    sound: false,
    made: 0,
    here: 0,
    transit: 0,
    gone: 0,
};

/// Counts copies by where they are. The caller says whether all is sound.
pub(crate) fn counted(
    sound: bool,
    copies: &[CheckedRow<CheckedCopy>],
    lines: &[CheckedLine],
) -> Audit
    ensures sound { result.sound ≡ sound }
    ensures counts { CountsCustody result (map seen_copy copies.now) (map seen_line lines.now) }
{
    Audit {
        sound,
        made: copies_made(copies),
        here: copies_under(CopyState::Here, copies),
        transit: lines_under(LineState::UnderWay, lines),
        gone: copies_under(CopyState::Scrapped, copies) + lines_under(LineState::Missing, lines),
    }
}

/// Audits copies and lines that could be read.
fn audit_rows(
    alloc: Global,
    copies: &[CheckedRow<CheckedCopy>],
    lines: &[CheckedLine],
) -> Result<Audit, NoMemory>
    ensures { IfOk result (λ audit. AuditsRows audit (map seen_copy copies.now) (map seen_line lines.now)) }
{
    let sound = are_in_custody(alloc, copies, lines)?;
    Ok(counted(sound, copies, lines))
}

/// Audits custody by the rows of the two tables, as they were read.
pub fn check_custody(alloc: Global, copies: &[Row], lines: &[Row]) -> Result<Audit, NoMemory>
    ensures { IfOk result (IsCustodyAudit copies.now lines.now) }
{
    let Some(copies) = read_rows::<CheckedRow<CheckedCopy>>(alloc, copies)? else {
        return Ok(NOTHING);
    };
    let Some(lines) = read_rows::<CheckedLine>(alloc, lines)? else {
        return Ok(NOTHING);
    };
    audit_rows(alloc, copies.as_slice(), lines.as_slice())
}

/// Audits custody, whatever the two tables hold: whether each mark of a copy or a line is made, has one place and
/// belongs to one film, and how many marks there are. All tables stay as they are. It returns
/// `Failed` only if the disk met a fault.
pub fn audit_custody<S: Alter>(
    alloc: Global,
    tx: &mut Transaction<'_, S>,
) -> Result<Audit, StoreFault>
    ensures does { DoesInside S.Store tx.old.conn tx.new.conn result
        (λ audit old new. IsShop old
        → IsCustodyAudit (map (columns_of 6) (old.now.trees 25)) (map (columns_of 8) (old.now.trees 37)) audit
        × (new.now ≡ old.now)) }
    ensures fails { FailsByFaults S.Store tx.old.conn tx.new.conn result IsShop }
{
    let copies = read_whole(tx, COPIES_TEXT)?;
    let lines = read_whole(tx, LINES_TEXT)?;
    match check_custody(alloc, copies.as_slice(), lines.as_slice()) {
        Ok(audit) => Ok(audit),
        Err(NoMemory) => Err(StoreFault::Memory),
    }
}
