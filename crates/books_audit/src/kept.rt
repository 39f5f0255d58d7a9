//! Keys of kept commands.

ghost use Rattle.std.specs.Prelude.{◌≡◌, ◌++◌, map, IsPermutation, IfOk, IfErr};
ghost use Rattle.std.specs.List.{AllByRecursion};
ghost use Rattle.shop_schema.specs.RowValues.{IsNumber};
ghost use Rattle.audit_rows.specs.declared.rows.CheckedKept.{CheckedKept};
ghost use Rattle.books_audit.specs.Keys.{office_caller, branch_caller, KeptAreRead, KeptCanBeRead};

use crate::kept_rows::CallerRow;
use crate::listed::read_rows;
use crate::lists::Unread;
use crate::tables::{KEPT, TableRows};
use audit_rows::{CheckedKept, climbs, sort_rows};
use shop_types::{BranchNo, Key, NoMemory};
use std::alloc::Global;

/// The keys of head office's kept commands and of the branches'.
#[derive(Drop)]
pub(crate) struct Keys {
    pub(crate) office: Vec<Key>,
    pub(crate) kept: Vec<CheckedKept>,
}

/// Splits the keys into head office's, which is caller 0, and the branches'.
fn split_callers(alloc: Global, rows: Vec<CallerRow>) -> Result<Keys, NoMemory>
    ensures same { IfOk result (λ keys. IsPermutation rows.items
        (map office_caller keys.office.items ++ map branch_caller keys.kept.items)) }
    ensures branches { IfOk result (λ keys. AllByRecursion (λ (x : CheckedKept). IsNumber x.branch) keys.kept.items) }
{
    let mut office = Vec::new(alloc);
    let mut kept = Vec::new(alloc);
    for row in rows {
        let CallerRow { caller, key } = row;
        match BranchNo::new(caller) {
            None => {
                if office.push(key).is_err() {
                    return Err(NoMemory);
                }
            }
            Some(branch) => {
                if kept.push(CheckedKept { branch, key }).is_err() {
                    return Err(NoMemory);
                }
            }
        }
    }
    Ok(Keys { office, kept })
}

/// Reads the kept keys, in their order. If a row isn't a kept command's, or one caller has a key twice, there are no
/// books.
pub(crate) fn read_kept(alloc: Global, tables: &TableRows) -> Result<Keys, Unread>
    ensures read { IfOk result (λ keys. KeptAreRead tables.now keys.office.items keys.kept.items) }
    ensures none { IfErr result (λ e. e ≡ Unread.NoBooks → ¬ KeptCanBeRead tables.now) }
{
    let Some(rows) = read_rows::<CallerRow>(alloc, tables.of(KEPT))? else {
        return Err(Unread::NoBooks);
    };
    let Keys {
        mut office,
        mut kept,
    } = split_callers(alloc, rows)?;
    sort_rows(&mut office);
    if !climbs(office.as_slice()) {
        return Err(Unread::NoBooks);
    }
    sort_rows(&mut kept);
    if !climbs(kept.as_slice()) {
        return Err(Unread::NoBooks);
    }
    Ok(Keys { office, kept })
}
