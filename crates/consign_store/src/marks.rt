//! Where the copies of a mark are.

ghost use Rattle.std.specs.Prelude.{filter, map};
ghost use Rattle.std.specs.List.Sorted.{IsPermutation};
ghost use Rattle.sql_rows.specs.Calls.{DoesInside};
ghost use Rattle.shop_model.specs.Sound.{is_mark};
ghost use Rattle.shop_ledger.specs.Calls.{Finds};
ghost use Rattle.shop_types.specs.Seen.{seen_mark};
ghost use Rattle.shop_store.specs.Seen.{seen_copy_row};
ghost use Rattle.consign_store.specs.Parts.{all_placed};
ghost use Rattle.consign_store.specs.Seen.{seen_line};

use crate::lines::LineRow;
use shop_store::copies::CopyRow;
use shop_types::Mark;
use sql_rows::{StoreFault, query_all};
use sqlite::types::ToSql;
use sqlite::{Alter, Transaction};
use std::alloc::Global;

const SELECT_COPIES: &str =
    "SELECT branch, number, film, state, origin_branch, origin_copy FROM copy WHERE origin_branch = ?1 AND origin_copy = ?2";

/// Returns the copies of all branches that have the mark, in any order. After a fault the transaction may be rolled
/// back.
pub fn copies_marked<S: Alter>(
    alloc: Global,
    tx: &mut Transaction<'_, S>,
    mark: &Mark,
) -> Result<Vec<CopyRow>, StoreFault>
    ensures { DoesInside S.Store tx.old.conn tx.new.conn result
        (λ rows. Finds (λ books. IsPermutation
        (filter (λ row. is_mark (seen_mark mark.now) row.it.mark) books.copies)
        (map (λ row. seen_copy_row row) rows.items))) }
{
    query_all(
        alloc,
        tx,
        SELECT_COPIES,
        &[mark.branch.get().to_sql(), mark.copy.get().to_sql()],
    )
}

const SELECT_MARKED: &str =
    "SELECT source, addressee, number, line, film, origin_branch, origin_copy, state FROM consignment_line WHERE origin_branch = ?1 AND origin_copy = ?2";

/// Returns the lines of all consignments that have the mark, in any order. After a fault the transaction may be rolled
/// back.
pub fn lines_marked<S: Alter>(
    alloc: Global,
    tx: &mut Transaction<'_, S>,
    mark: &Mark,
) -> Result<Vec<LineRow>, StoreFault>
    ensures { DoesInside S.Store tx.old.conn tx.new.conn result
        (λ rows. Finds (λ books. IsPermutation
        (filter (λ row. is_mark (seen_mark mark.now) row.it.mark) (all_placed books.consignments))
        (map (λ row. seen_line row) rows.items))) }
{
    query_all(
        alloc,
        tx,
        SELECT_MARKED,
        &[mark.branch.get().to_sql(), mark.copy.get().to_sql()],
    )
}
