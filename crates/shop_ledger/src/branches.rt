ghost use Rattle.std.specs.Prelude.{◌≡◌, ◌≤◌, ⊤, IfOk, IfErr, IfSome};
ghost use Rattle.sqlite.specs.Values.{or_null};
ghost use Rattle.sqlite_value.specs.Order.{column};
ghost use Rattle.sql_rows.specs.Calls.{DoesInside};
ghost use Rattle.sql_rows.specs.Causes.{FailsByFaults};
ghost use Rattle.sql_rows.specs.Rows.{number_value};
ghost use Rattle.sql_rows.specs.declared.fault.StoreFault.TheVariants.{Failed};
ghost use Rattle.shop_model.specs.Calendar.{IsMoment};
ghost use Rattle.shop_model.specs.Books.{set_last};
ghost use Rattle.shop_ledger.specs.Asked.{ShowsStanding};
ghost use Rattle.shop_ledger.specs.Calls.{Finds, Stores};
ghost use Rattle.shop_schema.specs.Asked.{HoldsBooks};
ghost use Rattle.shop_schema.specs.RowValues.{moment_value};
ghost use Rattle.shop_ledger.specs.Standings.{IsStanding};

use crate::counts::fitting;
use shop_schema::{MomentText, first_of, moment_or_null_at};
use shop_types::{BranchNo, Moment};
use sql_rows::{StoreFault, execute, number_at, query};
use sqlite::types::ToSql;
use sqlite::{Alter, Row, Transaction};

/// The state of a branch before a command: the moment of its last accepted command, if there is one, and how many of
/// its commands are kept.
#[derive(Clone, Copy)]
pub struct Standing {
    pub last: Option<Moment>,
    pub keys: u32,
}

/// Returns the moment and the count in the row.
fn standing_in(row: &Row) -> Result<Standing, StoreFault>
    ensures last { IfOk result (λ it. column row.now 0 ≡ or_null moment_value it.last) }
    ensures moment { IfOk result (λ it. IfSome it.last IsMoment) }
    ensures keys { IfOk result (λ it. column row.now 1 ≡ number_value it.keys) }
    ensures bound { IfOk result (λ it. it.keys ≤ 1_000_000) }
    ensures failed { IfErr result (λ e. e ≡ Failed → ¬ ShowsStanding row.now) }
{
    let last = match moment_or_null_at(row, 0) {
        Ok(last) => last,
        Err(fault) => return Err(fault),
    };
    let shown = match number_at(row, 1) {
        Ok(shown) => shown,
        Err(fault) => return Err(fault),
    };
    match fitting(Some(shown)) {
        Ok(keys) => Ok(Standing { last, keys }),
        Err(fault) => Err(fault),
    }
}

const SELECT_STANDING: &str =
    "SELECT b.last_moment, c.last FROM branch AS b LEFT JOIN counter AS c ON c.caller = b.number AND c.kind = 4 WHERE b.number = ?1";

/// Returns the state of the branch, or none if there is no such branch. One statement reads the branch's row and its
/// counter's row.
pub fn standing_at<S: Alter>(
    tx: &mut Transaction<'_, S>,
    branch: BranchNo,
) -> Result<Option<Standing>, StoreFault>
    ensures does { DoesInside S.Store tx.old.conn tx.new.conn result
        (λ standing. Finds (λ books. IsStanding branch books standing)) }
    ensures bound { IfOk result (λ standing. IfSome standing (λ it. it.keys ≤ 1_000_000)) }
    ensures fails { FailsByFaults S.Store tx.old.conn tx.new.conn result HoldsBooks }
{
    let rows = match query(tx, SELECT_STANDING, &[branch.get().to_sql()]) {
        Ok(rows) => rows,
        Err(fault) => return Err(fault),
    };
    first_of(rows.as_slice(), standing_in)
}

const UPDATE_LAST: &str = "UPDATE branch SET last_moment = ?2 WHERE number = ?1";

/// Makes the moment the last one of the branch. After a fault the transaction may be rolled back.
pub fn set_last<S: Alter>(
    tx: &mut Transaction<'_, S>,
    branch: BranchNo,
    moment: Moment,
) -> Result<(), StoreFault>
    ensures { DoesInside S.Store tx.old.conn tx.new.conn result
        (λ _. Stores (λ _. ⊤) (λ books. record books { lasts = set_last branch moment books.lasts })) }
{
    let last = MomentText::of(moment);
    execute(
        tx,
        UPDATE_LAST,
        &[branch.get().to_sql(), last.as_str().to_sql()],
    )
}
