//! Where a member of staff works, or worked before leaving.

ghost use Rattle.std.specs.Prelude.{⊤, ◌≡◌, true, IfErr, IfOk, map, option_map};
ghost use Rattle.sqlite_value.specs.Order.{column};
ghost use Rattle.sql_rows.specs.Rows.{number_value, flag_value};
ghost use Rattle.sql_rows.specs.Calls.{DoesInside};
ghost use Rattle.sql_rows.specs.Causes.{FailsByFaults};
ghost use Rattle.sql_rows.specs.declared.fault.StoreFault.TheVariants.{Failed};
ghost use Rattle.shop_model.specs.Rows.{at, set_at};
ghost use Rattle.shop_model.specs.Books.{head};
ghost use Rattle.shop_types.specs.Verdicts.{seen_post, post_of};
ghost use Rattle.shop_ledger.specs.Calls.{Finds, Stores};
ghost use Rattle.shop_schema.specs.Asked.{HoldsBooks};
ghost use Rattle.shop_store.specs.Asked.{ShowsPost};

use shop_schema::{query_first, row_number_at};
use shop_types::{StaffFound, StaffNo};
use sql_rows::{StoreFault, execute, flag_at};
use sqlite::types::ToSql;
use sqlite::{Alter, Row, Transaction};

/// Returns where the member of staff in the row works.
fn post_in(row: &Row) -> Result<StaffFound, StoreFault>
    ensures ok { IfOk result (λ it. (column row.now 0 ≡ number_value it.branch)
        × (column row.now 1 ≡ flag_value it.gone)) }
    ensures failed { IfErr result (λ e. e ≡ Failed → ¬ ShowsPost row.now) }
{
    let branch = match row_number_at(row, 0) {
        Ok(branch) => branch,
        Err(fault) => return Err(fault),
    };
    match flag_at(row, 1) {
        Ok(gone) => Ok(StaffFound { branch, gone }),
        Err(fault) => Err(fault),
    }
}

const SELECT_POST: &str = "SELECT branch, gone FROM staff WHERE number = ?1";

/// Returns where the member of staff of the number works, or worked before leaving.
pub fn staff_at<S: Alter>(
    tx: &mut Transaction<'_, S>,
    staff: StaffNo,
) -> Result<Option<StaffFound>, StoreFault>
    ensures does { DoesInside S.Store tx.old.conn tx.new.conn result
        (λ post. Finds (λ books. option_map seen_post post ≡ head (map post_of (at staff books.catalogue.staff)))) }
    ensures fails { FailsByFaults S.Store tx.old.conn tx.new.conn result HoldsBooks }
{
    query_first(tx, SELECT_POST, &[staff.get().to_sql()], post_in)
}

const UPDATE_GONE: &str = "UPDATE staff SET gone = ?2 WHERE number = ?1";

/// Sets that the member of staff left. After a fault the transaction may be rolled back.
pub fn set_gone<S: Alter>(tx: &mut Transaction<'_, S>, staff: StaffNo) -> Result<(), StoreFault>
    ensures { DoesInside S.Store tx.old.conn tx.new.conn result
        (λ _. Stores (λ _. ⊤) (λ books. record books {
          catalogue = record books.catalogue
              { staff = set_at staff (λ r. record r { gone = true }) books.catalogue.staff };
        })) }
{
    execute(tx, UPDATE_GONE, &[staff.get().to_sql(), true.to_sql()])
}
