//! Branches by their tokens, and who manages them.

ghost use Rattle.std.specs.Prelude.{⊤, ◌≡◌, Some, IfErr, IfOk, map};
ghost use Rattle.sqlite_value.specs.Order.{column};
ghost use Rattle.sql_rows.specs.Calls.{DoesInside};
ghost use Rattle.sql_rows.specs.Causes.{FailsByFaults};
ghost use Rattle.sql_rows.specs.Rows.{number_value};
ghost use Rattle.sql_rows.specs.declared.fault.StoreFault.TheVariants.{Failed};
ghost use Rattle.shop_model.specs.Rows.{at, set_at};
ghost use Rattle.shop_model.specs.Books.{head, branch_with};
ghost use Rattle.shop_ledger.specs.Calls.{Finds, Stores};
ghost use Rattle.shop_schema.specs.Asked.{HoldsBooks, ShowsNumber};
ghost use Rattle.shop_store.specs.SharedSeen.{branch_caller, manager_of};

use crate::columns::token_text;
use shop_schema::{query_first, row_number_at, row_number_or_null_at};
use shop_types::{BranchNo, StaffNo, Token};
use sql_rows::{StoreFault, execute};
use sqlite::types::ToSql;
use sqlite::{Alter, Row, Transaction};

/// Returns the number of the branch in the row.
fn branch_in(row: &Row) -> Result<BranchNo, StoreFault>
    ensures ok { IfOk result (λ n. column row.now 0 ≡ number_value n) }
    ensures failed { IfErr result (λ e. e ≡ Failed → ¬ ShowsNumber row.now) }
{
    row_number_at(row, 0)
}

pub(crate) const SELECT_WITH_TOKEN: &str = "SELECT number FROM branch WHERE token = ?1";

/// Returns the branch that has the token.
pub fn branch_with<S: Alter>(
    tx: &mut Transaction<'_, S>,
    token: &Token,
) -> Result<Option<BranchNo>, StoreFault>
    ensures does { DoesInside S.Store tx.old.conn tx.new.conn result
        (λ branch. Finds (λ books. branch_caller branch ≡ branch_with token.now 1 books.catalogue.branches)) }
    ensures fails { FailsByFaults S.Store tx.old.conn tx.new.conn result HoldsBooks }
{
    query_first(
        tx,
        SELECT_WITH_TOKEN,
        &[token_text(token).to_sql()],
        branch_in,
    )
}

const SELECT_MANAGER: &str = "SELECT manager FROM branch WHERE number = ?1";

/// Returns the manager of the branch of the number. The inner option is none if nobody manages the branch. The outer
/// option is none if there is no such branch.
pub fn branch_manager<S: Alter>(
    tx: &mut Transaction<'_, S>,
    branch: BranchNo,
) -> Result<Option<Option<StaffNo>>, StoreFault>
    ensures { DoesInside S.Store tx.old.conn tx.new.conn result
        (λ manager. Finds (λ books. manager ≡ head (map manager_of (at branch books.catalogue.branches)))) }
{
    query_first(
        tx,
        SELECT_MANAGER,
        &[branch.get().to_sql()],
        |row| row_number_or_null_at(row, 0),
    )
}

const UPDATE_MANAGER: &str = "UPDATE branch SET manager = ?2 WHERE number = ?1";

/// Makes the member of staff the branch's manager. After a fault the transaction may be rolled back.
pub fn set_manager<S: Alter>(
    tx: &mut Transaction<'_, S>,
    branch: BranchNo,
    staff: StaffNo,
) -> Result<(), StoreFault>
    ensures { DoesInside S.Store tx.old.conn tx.new.conn result
        (λ _. Stores (λ _. ⊤) (λ books. record books {
          catalogue = record books.catalogue {
            branches = set_at branch
                (λ r. record r { manager = Some staff }) books.catalogue.branches;
          };
        })) }
{
    execute(
        tx,
        UPDATE_MANAGER,
        &[branch.get().to_sql(), staff.get().to_sql()],
    )
}
