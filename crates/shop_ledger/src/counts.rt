ghost use Rattle.std.specs.Prelude.{◌≡◌, ◌≤◌, ◌+◌, ⊤, ℕ, [], ◌∷◌, List, Some, IfOk, IfErr, is_none, map, filter, option_to_list, slice_get};
ghost use Rattle.sqlite.specs.Held.{state};
ghost use Rattle.sqlite.specs.State.{HasCleanDisk, Shown};
ghost use Rattle.sqlite.specs.Values.{bound};
ghost use Rattle.sqlite_value.specs.Order.{Row as SqlRow, column};
ghost use Rattle.sql_rows.specs.Calls.{DoesInside};
ghost use Rattle.sql_rows.specs.Causes.{FailsByFaults};
ghost use Rattle.sql_rows.specs.Rows.{number_value};
ghost use Rattle.sql_rows.specs.declared.fault.StoreFault.TheVariants.{Failed};
ghost use Rattle.shop_model.specs.Rows.{numbered, of};
ghost use Rattle.shop_model.specs.Stock.{keeps_out};
ghost use Rattle.shop_ledger.specs.Asked.{HoldsCounter, ShowsCount};
ghost use Rattle.shop_ledger.specs.Calls.{Finds};
ghost use Rattle.shop_schema.specs.Asked.{FailsToCount, HoldsBooks, ShowsNumber};
ghost use Rattle.shop_schema.specs.Counts.{is_count, raise, put_out, drop_out, add_count, with_branch};
ghost use Rattle.shop_schema.specs.Shop.{Tallies};
ghost use Rattle.shop_ledger.specs.Counted.{kind_number, caller_of, kind_of, counted, IsCount, CountsOnce, IsOutBy};

use shop_schema::{query_first, row_number_at, row_numbers_in};
use shop_types::{BranchNo, CopyNo, RentalNo};
use sql_rows::{StoreFault, execute, number_at, query};
use sqlite::types::{ToSql, ValueRef};
use sqlite::{Alter, Row, Transaction};
use std::alloc::Global;

/// The kinds of rows that are counted for each branch.
#[derive(Clone, Copy)]
pub enum CountKind {
    Customers,
    Copies,
    Rentals,
    Payments,
    Kept,
}

impl CountKind {
    /// Returns the kind's number in the table.
    fn number(self) -> u32
        ensures { result ≡ kind_number self }
    {
        match self {
            CountKind::Customers => 0,
            CountKind::Copies => 1,
            CountKind::Rentals => 2,
            CountKind::Payments => 3,
            CountKind::Kept => 4,
        }
    }
}

/// A row of the table `counter`.
#[derive(Clone, Copy)]
pub enum Count {
    /// How many commands of head office are kept.
    OfficeKeys,
    /// How many rows of the kind the branch has.
    Of(BranchNo, CountKind),
}

impl Count {
    /// Returns the caller's number in the table: a branch's number, or 0 for head office.
    fn caller(&self) -> u32
        ensures value { result ≡ caller_of self.now }
        ensures real { IsCount self.now }
    {
        match self {
            Count::OfficeKeys => 0,
            Count::Of(branch, _) => branch.get(),
        }
    }

    /// Returns the number in the table of the kind that is counted.
    fn kind(&self) -> u32
        ensures { result ≡ kind_number (kind_of self.now) }
    {
        match self {
            Count::OfficeKeys => CountKind::Kept.number(),
            Count::Of(_, kind) => kind.number(),
        }
    }
}

/// Returns the count that was found. Fails with `Failed` if there is none, or if it is more than a million: no sound
/// table counts more.
pub(crate) fn fitting(found: Option<u32>) -> Result<u32, StoreFault>
    ensures ok { IfOk result (λ n. (found ≡ Some n) × (n ≤ 1_000_000)) }
    ensures failed { IfErr result (λ _. (n : ℕ) → found ≡ Some n → ¬ (n ≤ 1_000_000)) }
{
    match found {
        Some(count) if count <= 1_000_000 => Ok(count),
        _ => Err(StoreFault::Failed),
    }
}

/// Returns the count in the row.
fn count_in(row: &Row) -> Result<u32, StoreFault>
    ensures ok { IfOk result (λ n. column row.now 0 ≡ number_value n) }
    ensures failed { IfErr result (λ e. e ≡ Failed → ¬ ShowsCount row.now) }
{
    number_at(row, 0)
}

/// Returns the count in the first row that a query shows. Fails with `Failed` if there is none, or if it is more than
/// a million.
fn count_shown<S: Alter>(
    tx: &mut Transaction<'_, S>,
    text: &str,
    params: &[ValueRef<'_>],
) -> Result<u32, StoreFault>
    ensures does { DoesInside S.Store tx.old.conn tx.new.conn result
        (λ n old new. (rows : List SqlRow) × Shown text.now (bound params.now) old new rows
        × (row : SqlRow) × (Some row ≡ slice_get rows 0) × (column row 0 ≡ number_value n)) }
    ensures bound { IfOk result (λ n. n ≤ 1_000_000) }
    ensures told { HasCleanDisk (state S.Store tx.new.conn.now)
        → IfErr result (FailsToCount text.now (bound params.now) (state S.Store tx.old.conn.now)
        (state S.Store tx.new.conn.now)) }
{
    match query_first(tx, text, params, count_in) {
        Ok(found) => fitting(found),
        Err(fault) => Err(fault),
    }
}

const SELECT_COUNT: &str = "SELECT last FROM counter WHERE caller = ?1 AND kind = ?2";

/// Returns the value of the counter. One row is read, however many rows it counts.
pub fn count_of<S: Alter>(tx: &mut Transaction<'_, S>, count: Count) -> Result<u32, StoreFault>
    ensures does { DoesInside S.Store tx.old.conn tx.new.conn result
        (λ n. Finds (λ books. n ≡ counted count books)) }
    ensures bound { IfOk result (λ n. n ≤ 1_000_000) }
    ensures fails { FailsByFaults S.Store tx.old.conn tx.new.conn result (HoldsCounter count) }
{
    count_shown(
        tx,
        SELECT_COUNT,
        &[count.caller().to_sql(), count.kind().to_sql()],
    )
}

const UPDATE_COUNT: &str =
    "UPDATE counter SET last = last + ?3 WHERE caller = ?1 AND kind = ?2 RETURNING last";

/// Raises the counter by `more`, and returns its new value. A counter that isn't there is a fault. After a fault the
/// transaction may be rolled back.
pub fn take_numbers<S: Alter>(
    tx: &mut Transaction<'_, S>,
    count: Count,
    more: u32,
) -> Result<u32, StoreFault>
    ensures does { DoesInside S.Store tx.old.conn tx.new.conn result
        (λ last old new. Tallies old new (CountsOnce (caller_of count) (kind_of count))
        (raise (caller_of count) (kind_number (kind_of count)) more)
        (λ counts. map (λ it. it.last + more)
        (filter (is_count (caller_of count) (kind_number (kind_of count))) counts.counters) ≡ last ∷ [])) }
    ensures bound { IfOk result (λ last. last ≤ 1_000_000) }
{
    count_shown(
        tx,
        UPDATE_COUNT,
        &[
            count.caller().to_sql(),
            count.kind().to_sql(),
            more.to_sql(),
        ],
    )
}

/// Returns the number of the rental in the row.
fn rental_in(row: &Row) -> Result<RentalNo, StoreFault>
    ensures ok { IfOk result (λ n. column row.now 0 ≡ number_value n) }
    ensures failed { IfErr result (λ e. e ≡ Failed → ¬ ShowsNumber row.now) }
{
    row_number_at(row, 0)
}

const SELECT_OUT: &str = "SELECT rental FROM out_copy WHERE branch = ?1 AND copy = ?2";

/// Returns the copy's open rental, if the copy is out. No copy has two. One row is read, however many rentals there
/// are.
pub fn out_at<S: Alter>(
    tx: &mut Transaction<'_, S>,
    branch: BranchNo,
    copy: CopyNo,
) -> Result<Option<RentalNo>, StoreFault>
    ensures does { DoesInside S.Store tx.old.conn tx.new.conn result
        (λ out. Finds (λ books. option_to_list out
        ≡ map (λ it. it.0) (filter (λ it. keeps_out copy it.1) (numbered (of branch books.rentals))))) }
    ensures fails { FailsByFaults S.Store tx.old.conn tx.new.conn result HoldsBooks }
{
    query_first(
        tx,
        SELECT_OUT,
        &[branch.get().to_sql(), copy.get().to_sql()],
        rental_in,
    )
}

const SELECT_COPIES_OUT: &str = "SELECT copy FROM out_copy WHERE branch = ?1 ORDER BY rental";

/// Returns the branch's copies that are out, in the order of their rentals. One row is read for each of them, however
/// many copies there are.
pub fn copies_out<S: Alter>(
    alloc: Global,
    tx: &mut Transaction<'_, S>,
    branch: BranchNo,
) -> Result<Vec<CopyNo>, StoreFault>
    ensures { DoesInside S.Store tx.old.conn tx.new.conn result
        (λ copies. Finds (λ books. copies.items
        ≡ map (λ it. it.copy) (filter (λ it. is_none it.returned) (of branch books.rentals)))) }
{
    let rows = query(tx, SELECT_COPIES_OUT, &[branch.get().to_sql()])?;
    row_numbers_in(alloc, rows.as_slice())
}

const INSERT_OUT: &str = "INSERT INTO out_copy (branch, copy, rental) VALUES (?1, ?2, ?3)";

/// Notes that the branch's copy is out by the rental. After a fault the transaction may be rolled back.
pub fn put_out<S: Alter>(
    tx: &mut Transaction<'_, S>,
    branch: BranchNo,
    copy: CopyNo,
    rental: RentalNo,
) -> Result<(), StoreFault>
    ensures { DoesInside S.Store tx.old.conn tx.new.conn result
        (λ _ old new. Tallies old new (λ _. ⊤)
        (put_out (record { branch = branch; copy = copy; rental = rental })) (λ _. ⊤)) }
{
    execute(
        tx,
        INSERT_OUT,
        &[
            branch.get().to_sql(),
            copy.get().to_sql(),
            rental.get().to_sql(),
        ],
    )
}

const DELETE_OUT: &str = "DELETE FROM out_copy WHERE branch = ?1 AND copy = ?2 AND rental = ?3";

/// Notes that the branch's copy is back, which was out by the rental. After a fault the transaction may be rolled back.
pub fn drop_out<S: Alter>(
    tx: &mut Transaction<'_, S>,
    branch: BranchNo,
    copy: CopyNo,
    rental: RentalNo,
) -> Result<(), StoreFault>
    ensures { DoesInside S.Store tx.old.conn tx.new.conn result
        (λ _ old new. Tallies old new (IsOutBy branch copy rental) (drop_out branch copy rental) (λ _. ⊤)) }
{
    execute(
        tx,
        DELETE_OUT,
        &[
            branch.get().to_sql(),
            copy.get().to_sql(),
            rental.get().to_sql(),
        ],
    )
}

const INSERT_COUNT: &str = "INSERT INTO counter (caller, kind, last) VALUES (?1, ?2, ?3)";

/// Begins the caller's count of a kind of rows, at the given number. Caller 0 is head office. After a fault the
/// transaction may be rolled back.
pub fn put_count<S: Alter>(
    tx: &mut Transaction<'_, S>,
    caller: u32,
    kind: u32,
    last: u32,
) -> Result<(), StoreFault>
    ensures { DoesInside S.Store tx.old.conn tx.new.conn result
        (λ _ old new. Tallies old new (λ _. ⊤)
        (add_count (record { caller = caller; kind = kind; last = last })) (λ _. ⊤)) }
{
    execute(
        tx,
        INSERT_COUNT,
        &[caller.to_sql(), kind.to_sql(), last.to_sql()],
    )
}

/// Begins the five counts of a new branch, at 0. After a fault the transaction may be rolled back.
pub fn put_counts<S: Alter>(tx: &mut Transaction<'_, S>, branch: u32) -> Result<(), StoreFault>
    ensures { DoesInside S.Store tx.old.conn tx.new.conn result
        (λ _ old new. Tallies old new (λ _. ⊤) (with_branch branch) (λ _. ⊤)) }
{
    put_count(tx, branch, 0, 0)?;
    put_count(tx, branch, 1, 0)?;
    put_count(tx, branch, 2, 0)?;
    put_count(tx, branch, 3, 0)?;
    put_count(tx, branch, 4, 0)
}
