//! The lines of consignments, each with its number in its consignment.

ghost use Rattle.std.specs.Prelude.{◌≡◌, ◌<◌, ⊤, filter, flat_map, map};
ghost use Rattle.sqlite.specs.Values.{bound};
ghost use Rattle.sql_rows.specs.Calls.{DoesInside};
ghost use Rattle.shop_model.specs.Books.{is_consignment};
ghost use Rattle.shop_ledger.specs.Calls.{Finds, Stores};
ghost use Rattle.consign_store.specs.Parts.{placed_columns, placed_in, with_line, with_state, IsNextLine, IsOnce};
ghost use Rattle.consign_store.specs.Seen.{seen_line};
ghost use Rattle.shop_types.specs.Seen.{seen_line_state};

use crate::keys::ConsignmentKey;
use shop_schema::tables::LineCells;
use shop_schema::{line_state_code, read_cells};
use shop_types::{FilmNo, LineNo, LineState, Mark};
use sql_rows::{StoreFault, Stored, execute, query_all};
use sqlite::types::{ToSql, ValueRef};
use sqlite::{Alter, Row, Transaction};
use std::alloc::Global;

/// A line of a consignment, with its number there.
#[derive(Clone, Copy, Drop)]
pub struct LineRow {
    pub key: ConsignmentKey,
    pub line: LineNo,
    pub film: FilmNo,
    pub mark: Mark,
    pub state: LineState,
}

impl Stored for LineRow {
    ghost columns = { λ row. placed_columns (seen_line row) };

    ghost fits = { λ _. ⊤ };

    ghost refuses = { λ _. ⊤ };

    fn read(row: &Row) -> Result<LineRow, StoreFault> {
        let (source, (addressee, (number, (line, (film, (branch, (copy, (state, ())))))))) =
            read_cells::<LineCells>(row)?;
        Ok(LineRow {
            key: ConsignmentKey {
                source,
                addressee,
                number,
            },
            line,
            film,
            mark: Mark { branch, copy },
            state,
        })
    }
}

impl LineRow {
    /// Returns the columns in order, as parameters.
    fn values(&self) -> [ValueRef<'static>; 8]
        ensures { bound result ≡ placed_columns (seen_line self.now) }
    {
        [
            self.key.source.get().to_sql(),
            self.key.addressee.get().to_sql(),
            self.key.number.get().to_sql(),
            self.line.get().to_sql(),
            self.film.get().to_sql(),
            self.mark.branch.get().to_sql(),
            self.mark.copy.get().to_sql(),
            line_state_code(self.state).to_sql(),
        ]
    }
}

const SELECT_LINES: &str =
    "SELECT source, addressee, number, line, film, origin_branch, origin_copy, state FROM consignment_line WHERE source = ?1 AND addressee = ?2 AND number = ?3 ORDER BY line";

/// Returns the lines of the consignment, in their order. After a fault the transaction may be rolled back.
pub fn lines_of<S: Alter>(
    alloc: Global,
    tx: &mut Transaction<'_, S>,
    key: &ConsignmentKey,
) -> Result<Vec<LineRow>, StoreFault>
    ensures { DoesInside S.Store tx.old.conn tx.new.conn result
        (λ rows. Finds (λ books. map (λ row. seen_line row) rows.items ≡ flat_map placed_in
        (filter (is_consignment key.now.source key.now.addressee key.now.number) books.consignments))) }
{
    query_all(
        alloc,
        tx,
        SELECT_LINES,
        &[
            key.source.get().to_sql(),
            key.addressee.get().to_sql(),
            key.number.get().to_sql(),
        ],
    )
}

const INSERT_LINE: &str =
    "INSERT INTO consignment_line (source, addressee, number, line, film, origin_branch, origin_copy, state) VALUES (?1, ?2, ?3, ?4, ?5, ?6, ?7, ?8)";

/// Adds the line after the lines that its consignment has. After a fault the transaction may be rolled back.
pub fn put_line<S: Alter>(tx: &mut Transaction<'_, S>, row: &LineRow) -> Result<(), StoreFault>
    ensures { DoesInside S.Store tx.old.conn tx.new.conn result
        (λ _. Stores (IsNextLine (seen_line row.now)) (with_line (seen_line row.now))) }
{
    execute(tx, INSERT_LINE, &row.values())
}

const UPDATE_LINE: &str =
    "UPDATE consignment_line SET state = ?5 WHERE source = ?1 AND addressee = ?2 AND number = ?3 AND line = ?4";

/// Sets the state of the line. A line that isn't there is not made. After a fault the transaction may be rolled back.
pub fn set_line<S: Alter>(
    tx: &mut Transaction<'_, S>,
    key: &ConsignmentKey,
    line: LineNo,
    new: LineState,
) -> Result<(), StoreFault>
    ensures { DoesInside S.Store tx.old.conn tx.new.conn result
        (λ _. Stores (IsOnce key.now.source key.now.addressee key.now.number)
        (with_state key.now.source key.now.addressee key.now.number line (seen_line_state new))) }
{
    execute(
        tx,
        UPDATE_LINE,
        &[
            key.source.get().to_sql(),
            key.addressee.get().to_sql(),
            key.number.get().to_sql(),
            line.get().to_sql(),
            line_state_code(new).to_sql(),
        ],
    )
}
