//! A query whose rows are taken one at a time, outside any transaction.

ghost use Rattle.std.specs.Prelude.{◌≡◌, ℕ, List, [], ◌∷◌, ◌++◌, false, OnOk, IfErr};
ghost use Rattle.sqlite.specs.Held.{state};
ghost use Rattle.sqlite.specs.Given.{HasGiven};
ghost use Rattle.sqlite.specs.State.{HasCleanDisk, IsUnchanged, KeepsCommit, Survives, Shown};
ghost use Rattle.sql_rows.specs.Calls.{StaysSame};
ghost use Rattle.sqlite.specs.Values.{bound};
ghost use Rattle.sqlite_value.specs.Order.{Row as SqlRow};
ghost use Rattle.sql_rows.specs.Texts.{IsQuery};
ghost use Rattle.sql_rows.specs.Causes.{FailsToTake};
ghost use Rattle.sql_rows.specs.declared.fault.StoreFault.TheVariants.{Failed};

use crate::fault::{StoreFault, fault_of};
use sqlite::types::ValueRef;
use sqlite::{Alter, Connection, Row, Rows};

/// Takes the rows of an answer in their order.
pub trait TakesRows: Sized {
    // taking these rows turns the first taker into the second
    ghost took: { Self → Self → List SqlRow → Type 0 };

    // this taker may refuse the row as `Failed`
    ghost refuses: { Self → SqlRow → Type 0 };

    fn take(&mut self, row: &Row) -> Result<(), StoreFault>
        ensures taken { OnOk result ((first : _) (given : List SqlRow) → took first self.old given
            → took first self.new (given ++ row.now ∷ [])) }
        ensures failed { IfErr result (λ e. e ≡ Failed → refuses self.old row.now) };
}

/// Passes all rows of an answer that has just begun to `taker`.
fn take_all<S: Alter, T: TakesRows>(rows: &mut Rows<'_, S>, taker: &mut T) -> Result<(), StoreFault>
    ensures same_reference { rows.new.conn.ghost_name ≡ rows.old.conn.ghost_name }
    ensures took { HasCleanDisk (state S.Store rows.new.conn.now)
        → OnOk result ((sql : List ℕ) (params : SqlRow) → IsQuery sql → HasGiven S.Store sql params rows.old.conn.now
        [] → (given : List SqlRow) × Shown sql params (state S.Store rows.old.conn.now)
        (state S.Store rows.new.conn.now) given
        × (T.TakesRows.took taker.old taker.old [] → T.TakesRows.took taker.old taker.new given)) }
    ensures told { HasCleanDisk (state S.Store rows.new.conn.now)
        → IfErr result (λ fault. (sql : List ℕ) (params : SqlRow) → HasGiven S.Store sql params rows.old.conn.now []
        → FailsToTake S.Store (T.TakesRows.took taker.old) T.TakesRows.refuses taker.old sql params rows.old.conn.now
        rows.new.conn.now fault) }
    ensures same { HasCleanDisk (state S.Store rows.new.conn.now)
        → OnOk result (IsUnchanged (state S.Store rows.old.conn.now) (state S.Store rows.new.conn.now)) }
    ensures kept { HasCleanDisk (state S.Store rows.new.conn.now)
        → KeepsCommit (state S.Store rows.old.conn.now) (state S.Store rows.new.conn.now) }
    ensures mode { rows.old.conn.now.in_transaction ≡ false → rows.new.conn.now.in_transaction ≡ false }
    ensures survives { Survives (state S.Store rows.old.conn.now) (state S.Store rows.new.conn.now) (λ _. ⊥) }
{
    'rows: for count in 0..u128::MAX {
        if let Err(error) = rows.advance() {
            return Err(fault_of(error));
        }
        let Some(row) = rows.get() else {
            return Ok(());
        };
        if let Err(fault) = taker.take(row) {
            return Err(fault);
        }
    }
    Err(StoreFault::Failed)
}

/// Hands the rows that a query shows to `taker`, one at a time. The database stays as it was, unless the store fails,
/// which commits nothing.
pub fn each_row<S: Alter, T: TakesRows>(
    conn: &mut Connection<S>,
    text: &str,
    params: &[ValueRef<'_>],
    taker: &mut T,
) -> Result<(), StoreFault>
    requires { IsQuery text.now }
    ensures took { HasCleanDisk (state S.Store conn.new)
        → OnOk result ((rows : List SqlRow) × Shown text.now (bound params.now) (state S.Store conn.old)
        (state S.Store conn.new) rows
        × (T.TakesRows.took taker.old taker.old [] → T.TakesRows.took taker.old taker.new rows)) }
    ensures told { HasCleanDisk (state S.Store conn.new)
        → IfErr result (FailsToTake S.Store (T.TakesRows.took taker.old) T.TakesRows.refuses taker.old text.now
        (bound params.now) conn.old conn.new) }
    ensures same { StaysSame S.Store conn.old conn.new result }
{
    let mut rows = match conn.query(text, params) {
        Ok(rows) => rows,
        Err(error) => return Err(fault_of(error)),
    };
    take_all(&mut rows, taker)
}
