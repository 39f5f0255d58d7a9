//! The audit of all tables.

ghost use Rattle.std.specs.Prelude.{◌≡◌, IfOk};
ghost use Rattle.sql_rows.specs.Calls.{DoesInside};
ghost use Rattle.sql_rows.specs.Causes.{FailsByFaults};
ghost use Rattle.shop_schema.specs.Shop.{IsShop};
ghost use Rattle.books_audit.specs.Audits.{IsAuditOf};
ghost use Rattle.books_audit.specs.Shops.{AuditsTables};

use crate::counts::have_counts;
use crate::custody::NOTHING;
use crate::lists::Unread;
use crate::ordered::audit_ordered;
use crate::reading::read_ordered;
use crate::tables::{TableRows, read_tables};
use shop_types::{Audit, NoMemory};
use sql_rows::StoreFault;
use sqlite::{Alter, Transaction};
use std::alloc::Global;

/// Checks whether the tables stand for sound books, by the widest limits that a chain can have. Counts the books'
/// copies by where they are. If the tables stand for no books, they aren't sound, and all counts are 0. They
/// stand for no books if a row isn't one of its table's, or a shared row's or a line's number is missing. A key that
/// is there twice, a line without a consignment, a rental without terms, and terms without a rental have the same
/// effect. So has a table of counts that differs from the counts of the books. The time is n log n in the number of
/// rows.
#[tactic(auto, using(crate::proofs::InOrder::are_ordered))]
pub fn check_books(alloc: Global, tables: &TableRows) -> Result<Audit, NoMemory>
    ensures { IfOk result (IsAuditOf tables.now) }
{
    let rows = match read_ordered(alloc, tables) {
        Ok(rows) => rows,
        Err(Unread::NoBooks) => return Ok(NOTHING),
        Err(Unread::Memory) => return Err(NoMemory),
    };
    if !have_counts(alloc, tables, &rows)? {
        return Ok(NOTHING);
    }
    audit_ordered(alloc, &rows)
}

/// Audits a shop's tables, whatever they hold. It reads each table once and changes none, even if the transaction has
/// written. It returns `Failed` only if the disk met a fault.
pub fn audit_books<S: Alter>(
    alloc: Global,
    tx: &mut Transaction<'_, S>,
) -> Result<Audit, StoreFault>
    ensures does { DoesInside S.Store tx.old.conn tx.new.conn result
        (λ audit old new. IsShop old → AuditsTables old.now.trees audit × (new.now ≡ old.now)) }
    ensures fails { FailsByFaults S.Store tx.old.conn tx.new.conn result IsShop }
{
    let tables = read_tables(alloc, tx)?;
    match check_books(alloc, &tables) {
        Ok(audit) => Ok(audit),
        Err(NoMemory) => Err(StoreFault::Memory),
    }
}
