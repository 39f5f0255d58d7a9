ghost use Rattle.std.specs.Prelude.{◌≡◌, ◌<◌, ◌==◌, ◌&&◌, ⊤, [], ◌∷◌, ◌++◌, IfErr, IfOk, IfSome, filter, map, option_map, option_to_list};
ghost use Rattle.sqlite_value.specs.Order.{column};
ghost use Rattle.std.specs.List.{list_any};
ghost use Rattle.std.specs.Str.{bytes_eq};
ghost use Rattle.sqlite.specs.Values.{bound, or_null};
ghost use Rattle.sql_rows.specs.Rows.{PicksOne, number_value};
ghost use Rattle.sql_rows.specs.Calls.{DoesInside};
ghost use Rattle.sql_rows.specs.Causes.{FailsByFaults};
ghost use Rattle.sql_rows.specs.declared.fault.StoreFault.TheVariants.{Failed};
ghost use Rattle.shop_model.specs.Rows.{at, is_of, is_row, numbered, of, owned_by, set_row};
ghost use Rattle.shop_model.specs.Values as model;
ghost use Rattle.shop_model.specs.Stock.{keeps_out};
ghost use Rattle.shop_model.specs.Books.{put_state, shop_of};
ghost use Rattle.shop_model.specs.Sound.{copy_is};
ghost use Rattle.shop_ledger.specs.Calls.{Finds, Stores};
ghost use Rattle.shop_schema.specs.Asked.{HoldsBooks};
ghost use Rattle.shop_schema.specs.RowValues.{IsRow, IsCopy, state_value, copy_columns};
ghost use Rattle.shop_store.specs.Asked.{IsNoneOf, ShowsNow};
ghost use Rattle.shop_store.specs.Seen.{seen_copy_row, seen_copy_now};
ghost use Rattle.shop_types.specs.Seen.{seen_state};

use crate::rows::shows_row;
use shop_schema::tables::CopyCells;
use shop_schema::{
    Cell, query_first, read_cells, row_number_at, row_number_or_null_at, row_numbers_in, state_code,
};
use shop_types::{BranchNo, CopyNo, CopyState, FilmNo, LotName, Mark, RentalNo};
use sql_rows::{StoreFault, Stored, execute, query, query_all, query_one};
use sqlite::types::{ToSql, ValueRef};
use sqlite::{Alter, Row, Transaction};
use std::alloc::Global;

/// A copy of a branch, with its number there.
#[derive(Clone, Copy, Drop)]
pub struct CopyRow {
    pub branch: BranchNo,
    pub number: CopyNo,
    pub film: FilmNo,
    pub state: CopyState,
    pub mark: Mark,
}

/// The current state of a copy: its film, where it is, and its open rental, if it is out.
#[derive(Clone, Copy)]
pub struct CopyNow {
    pub film: FilmNo,
    pub state: CopyState,
    pub out: Option<RentalNo>,
}

impl Stored for CopyRow {
    ghost columns = { λ row. copy_columns (seen_copy_row row) };

    ghost fits = { λ row. IsRow IsCopy (seen_copy_row row) };

    ghost refuses = { IsNoneOf (IsRow IsCopy) copy_columns };

    fn read(row: &Row) -> Result<CopyRow, StoreFault> {
        let cells = match read_cells::<CopyCells>(row) {
            Ok(cells) => cells,
            Err(fault) => return Err(fault),
        };
        let (branch, (number, (film, (state, (origin, (copy, ())))))) = cells;
        Ok(CopyRow {
            branch,
            number,
            film,
            state,
            mark: Mark {
                branch: origin,
                copy,
            },
        })
    }
}

impl CopyRow {
    /// Returns the columns in order, as parameters.
    fn values(&self) -> [ValueRef<'static>; 6]
        ensures { bound result ≡ copy_columns (seen_copy_row self.now) }
    {
        [
            self.branch.get().to_sql(),
            self.number.get().to_sql(),
            self.film.get().to_sql(),
            state_code(self.state).to_sql(),
            self.mark.branch.get().to_sql(),
            self.mark.copy.get().to_sql(),
        ]
    }
}

const SELECT_COPY: &str =
    "SELECT branch, number, film, state, origin_branch, origin_copy FROM copy WHERE branch = ?1 AND number = ?2";

/// Returns the branch's copy of the number, in whatever state, or none if there is no such copy.
pub fn copy_at<S: Alter>(
    tx: &mut Transaction<'_, S>,
    branch: BranchNo,
    number: CopyNo,
) -> Result<Option<CopyRow>, StoreFault>
    ensures { DoesInside S.Store tx.old.conn tx.new.conn result
        (λ row. Finds (λ books. option_to_list (option_map (λ it. (seen_copy_row it).it) row)
        ≡ at number (of branch books.copies))) }
{
    query_one(
        tx,
        SELECT_COPY,
        &[branch.get().to_sql(), number.get().to_sql()],
    )
}

/// Reads the current state of the copy in the row.
fn now_in(row: &Row) -> Result<CopyNow, StoreFault>
    ensures ok { IfOk result (λ it. (column row.now 0 ≡ number_value it.film)
        × (column row.now 1 ≡ state_value (seen_state it.state)) × (column row.now 2 ≡ or_null number_value it.out)) }
    ensures failed { IfErr result (λ e. e ≡ Failed → ¬ ShowsNow row.now) }
{
    let film = match row_number_at(row, 0) {
        Ok(film) => film,
        Err(fault) => return Err(fault),
    };
    let state = match CopyState::read_at(row, 1) {
        Ok(state) => state,
        Err(fault) => return Err(fault),
    };
    match row_number_or_null_at(row, 2) {
        Ok(out) => Ok(CopyNow { film, state, out }),
        Err(fault) => Err(fault),
    }
}

const SELECT_NOW: &str =
    "SELECT c.film, c.state, o.rental FROM copy AS c LEFT JOIN out_copy AS o ON o.branch = c.branch AND o.copy = c.number WHERE c.branch = ?1 AND c.number = ?2";

/// Returns the current state of the branch's copy of the number, or none if there is no such copy. No copy has two open
/// rentals.
pub fn copy_now_at<S: Alter>(
    tx: &mut Transaction<'_, S>,
    branch: BranchNo,
    number: CopyNo,
) -> Result<Option<CopyNow>, StoreFault>
    ensures does { DoesInside S.Store tx.old.conn tx.new.conn result
        (λ found. Finds (λ books. (option_to_list (option_map seen_copy_now found) ≡ at number
        (shop_of branch books).copies)
        × IfSome found (λ it. option_to_list it.out ≡ map (λ it. it.0)
        (filter (λ it. keeps_out number it.1) (numbered (of branch books.rentals)))))) }
    ensures fails { FailsByFaults S.Store tx.old.conn tx.new.conn result HoldsBooks }
{
    query_first(
        tx,
        SELECT_NOW,
        &[branch.get().to_sql(), number.get().to_sql()],
        now_in,
    )
}

const SELECT_COPIES_OF_FILM: &str =
    "SELECT branch, number, film, state, origin_branch, origin_copy FROM copy WHERE branch = ?1 AND film = ?2 ORDER BY number";

/// Returns the copies of the film that the branch has, in whatever state, in order of number. After a fault the
/// transaction may be rolled back.
pub fn copies_of_film<S: Alter>(
    alloc: Global,
    tx: &mut Transaction<'_, S>,
    branch: BranchNo,
    film: FilmNo,
) -> Result<Vec<CopyRow>, StoreFault>
    ensures does { DoesInside S.Store tx.old.conn tx.new.conn result
        (λ rows. Finds (λ books. map (λ row. seen_copy_row row) rows.items
        ≡ filter (λ row. is_of branch row && row.it.film == film) books.copies)) }
    ensures fails { FailsByFaults S.Store tx.old.conn tx.new.conn result HoldsBooks }
{
    query_all(
        alloc,
        tx,
        SELECT_COPIES_OF_FILM,
        &[branch.get().to_sql(), film.get().to_sql()],
    )
}

const SELECT_IN_STATE: &str =
    "SELECT number FROM copy WHERE branch = ?1 AND state = ?2 ORDER BY number";

/// Returns the numbers of the branch's copies in that state, in order. After a fault the transaction may be rolled
/// back.
pub fn copies_in_state<S: Alter>(
    alloc: Global,
    tx: &mut Transaction<'_, S>,
    branch: BranchNo,
    which: CopyState,
) -> Result<Vec<CopyNo>, StoreFault>
    ensures { DoesInside S.Store tx.old.conn tx.new.conn result
        (λ numbers. Finds (λ books. numbers.items
        ≡ map (λ row. row.number)
        (filter (λ row. is_of branch row && copy_is row.it.state (seen_state which)) books.copies))) }
{
    let rows = query(
        tx,
        SELECT_IN_STATE,
        &[branch.get().to_sql(), state_code(which).to_sql()],
    )?;
    row_numbers_in(alloc, rows.as_slice())
}

const UPDATE_STATE: &str = "UPDATE copy SET state = ?3 WHERE branch = ?1 AND number = ?2";

/// Sets where the copy is. The branch must have at most one copy of the number. A copy that isn't there is not made.
/// After a fault the transaction may be rolled back.
pub fn set_state<S: Alter>(
    tx: &mut Transaction<'_, S>,
    branch: BranchNo,
    number: CopyNo,
    new: CopyState,
) -> Result<(), StoreFault>
    ensures { DoesInside S.Store tx.old.conn tx.new.conn result
        (λ _. Stores (λ books. PicksOne (is_row branch number) books.copies)
        (λ books. record books { copies = set_row branch number (put_state (seen_state new)) books.copies })) }
{
    execute(
        tx,
        UPDATE_STATE,
        &[
            branch.get().to_sql(),
            number.get().to_sql(),
            state_code(new).to_sql(),
        ],
    )
}

const INSERT_COPY: &str =
    "INSERT INTO copy (branch, number, film, state, origin_branch, origin_copy) VALUES (?1, ?2, ?3, ?4, ?5, ?6)";

/// Adds the copy. After a fault the transaction may be rolled back.
pub fn put_copy<S: Alter>(tx: &mut Transaction<'_, S>, row: CopyRow) -> Result<(), StoreFault>
    ensures { DoesInside S.Store tx.old.conn tx.new.conn result
        (λ _. Stores (λ _. ⊤) (λ books. record books { copies = books.copies ++ seen_copy_row row ∷ [] })) }
{
    execute(tx, INSERT_COPY, &row.values())
}

const SELECT_LOT: &str = "SELECT name FROM lot WHERE branch = ?1 AND name = ?2";

/// Returns whether the branch imported a lot of the name.
pub fn has_lot<S: Alter>(
    tx: &mut Transaction<'_, S>,
    branch: BranchNo,
    lot: &LotName,
) -> Result<bool, StoreFault>
    ensures { DoesInside S.Store tx.old.conn tx.new.conn result
        (λ has. Finds (λ books. has ≡ list_any (bytes_eq lot.now) (owned_by branch books.lots))) }
{
    shows_row(
        tx,
        SELECT_LOT,
        &[branch.get().to_sql(), lot.as_str().to_sql()],
    )
}

const INSERT_LOT: &str = "INSERT INTO lot (branch, name) VALUES (?1, ?2)";

/// Adds the name of a lot that the branch imported. After a fault the transaction may be rolled back.
pub fn put_lot<S: Alter>(
    tx: &mut Transaction<'_, S>,
    branch: BranchNo,
    lot: &LotName,
) -> Result<(), StoreFault>
    ensures { DoesInside S.Store tx.old.conn tx.new.conn result
        (λ _. Stores (λ _. ⊤)
        (λ books. record books { lots = books.lots ++ record { owner = branch; it = lot.now } ∷ [] })) }
{
    execute(
        tx,
        INSERT_LOT,
        &[branch.get().to_sql(), lot.as_str().to_sql()],
    )
}
