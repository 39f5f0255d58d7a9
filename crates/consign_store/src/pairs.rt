//! How many consignments went from one branch to another.

ghost use Rattle.std.specs.Prelude.{◌≡◌, ◌+◌, Some, IfOk};
ghost use Rattle.sqlite_value.specs.Order.{column};
ghost use Rattle.sql_rows.specs.Calls.{DoesInside};
ghost use Rattle.sql_rows.specs.Rows.{number_value};
ghost use Rattle.shop_schema.specs.Counts.{last_of, add_pair};
ghost use Rattle.shop_schema.specs.Shop.{Tallies};
ghost use Rattle.shop_schema.specs.First.{TellsFirst};
ghost use Rattle.consign_store.specs.Parts.{CountsPairOnce};

use shop_schema::row_number_at;
use shop_types::{BranchNo, ConsignmentNo};
use sql_rows::{StoreFault, query};
use sqlite::types::ToSql;
use sqlite::{Alter, Row, Transaction};

/// Returns the number in the first column of the first row. Fails with `Failed` if there is no row.
fn first_number(rows: &[Row]) -> Result<ConsignmentNo, StoreFault>
    ensures { IfOk result (λ n. TellsFirst (λ row m. column row 0 ≡ number_value m) rows.now (Some n)) }
{
    match rows.first() {
        None => Err(StoreFault::Failed),
        Some(row) => row_number_at(row, 0),
    }
}

const UPSERT_PAIR: &str =
    "INSERT INTO pair_count (source, addressee, last) VALUES (?1, ?2, 1) ON CONFLICT (source, addressee) DO UPDATE SET last = last + 1 RETURNING last";

/// Takes the pair's next number, which counts the consignments of the sender to the addressee. The first call adds the
/// pair's row. After a fault the transaction may be rolled back.
pub fn take_pair<S: Alter>(
    tx: &mut Transaction<'_, S>,
    source: BranchNo,
    addressee: BranchNo,
) -> Result<ConsignmentNo, StoreFault>
    ensures { DoesInside S.Store tx.old.conn tx.new.conn result
        (λ number old new. Tallies old new (CountsPairOnce source addressee) (add_pair source addressee)
        (λ counts. number ≡ last_of source addressee counts.pairs + 1)) }
{
    let rows = query(
        tx,
        UPSERT_PAIR,
        &[source.get().to_sql(), addressee.get().to_sql()],
    )?;
    first_number(rows.as_slice())
}
