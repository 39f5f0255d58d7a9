//! Consignments without their lines.

ghost use Rattle.std.specs.Prelude.{◌≡◌, ◌<◌, ⊤, [], ◌∷◌, ◌++◌, IfOk, filter, length, map, option_map, option_to_list};
ghost use Rattle.sqlite.specs.Values.{bound};
ghost use Rattle.sql_rows.specs.Calls.{DoesInside};
ghost use Rattle.shop_model.specs.Books.{is_consignment};
ghost use Rattle.shop_ledger.specs.Calls.{Finds, Stores};
ghost use Rattle.shop_store.specs.SharedSeen.{IsFirstNumber};
ghost use Rattle.consign_store.specs.Parts.{header_of, header_columns, opened, with_received, IsOnce};
ghost use Rattle.consign_store.specs.Seen.{seen_header};

use crate::keys::ConsignmentKey;
use shop_schema::tables::HeaderCells;
use shop_schema::{DispatchPlace, read_cells};
use sql_rows::{StoreFault, Stored, execute, fault_of, query, query_one};
use sqlite::types::{ToSql, ValueRef};
use sqlite::{Alter, Row, Transaction};

/// A consignment without its lines.
#[derive(Clone, Copy, Drop)]
pub struct HeaderRow {
    pub key: ConsignmentKey,
    pub place: DispatchPlace,
    pub received: bool,
}

impl Stored for HeaderRow {
    ghost columns = { λ row. header_columns (seen_header row) };

    ghost fits = { λ _. ⊤ };

    ghost refuses = { λ _. ⊤ };

    fn read(row: &Row) -> Result<HeaderRow, StoreFault> {
        let (source, (addressee, (number, (place, (received, ()))))) = read_cells::<HeaderCells>(
            row,
        )?;
        Ok(HeaderRow {
            key: ConsignmentKey {
                source,
                addressee,
                number,
            },
            place,
            received,
        })
    }
}

impl HeaderRow {
    /// Returns the columns in order, as parameters.
    fn values(&self) -> [ValueRef<'static>; 5]
        ensures { bound result ≡ header_columns (seen_header self.now) }
    {
        [
            self.key.source.get().to_sql(),
            self.key.addressee.get().to_sql(),
            self.key.number.get().to_sql(),
            self.place.value(),
            self.received.to_sql(),
        ]
    }
}

/// Returns the place in the first column of the first row, or 0 if there is no row.
fn first_place(rows: &[Row]) -> Result<u64, StoreFault>
    ensures { IfOk result (IsFirstNumber rows.now) }
{
    match rows.first() {
        None => Ok(0),
        Some(row) => match row.get(0) {
            Ok(place) => Ok(place),
            Err(error) => Err(fault_of(error)),
        },
    }
}

const SELECT_PLACE: &str = "SELECT place FROM consignment ORDER BY place DESC LIMIT 1";

/// Returns the place of the last consignment of the chain, or 0 if there is none. Places count from 1 without a gap, so
/// the last place is the count of consignments.
pub fn last_place<S: Alter>(tx: &mut Transaction<'_, S>) -> Result<u64, StoreFault>
    ensures { DoesInside S.Store tx.old.conn tx.new.conn result
        (λ last. Finds (λ books. last ≡ length books.consignments)) }
{
    let rows = query(tx, SELECT_PLACE, &[])?;
    first_place(rows.as_slice())
}

const SELECT_HEADER: &str =
    "SELECT source, addressee, number, place, received FROM consignment WHERE source = ?1 AND addressee = ?2 AND number = ?3";

/// Returns the consignment of the key, without its lines, or none if there is no such consignment.
pub fn header_at<S: Alter>(
    tx: &mut Transaction<'_, S>,
    key: &ConsignmentKey,
) -> Result<Option<HeaderRow>, StoreFault>
    ensures { DoesInside S.Store tx.old.conn tx.new.conn result
        (λ row. Finds (λ books. option_to_list (option_map (λ it. seen_header it) row)
        ≡ map header_of (filter (is_consignment key.now.source key.now.addressee key.now.number) books.consignments))) }
{
    query_one(
        tx,
        SELECT_HEADER,
        &[
            key.source.get().to_sql(),
            key.addressee.get().to_sql(),
            key.number.get().to_sql(),
        ],
    )
}

const INSERT_HEADER: &str =
    "INSERT INTO consignment (source, addressee, number, place, received) VALUES (?1, ?2, ?3, ?4, ?5)";

/// Adds the consignment, with no line yet. After a fault the transaction may be rolled back.
pub fn put_header<S: Alter>(tx: &mut Transaction<'_, S>, row: &HeaderRow) -> Result<(), StoreFault>
    ensures { DoesInside S.Store tx.old.conn tx.new.conn result
        (λ _. Stores (λ _. ⊤)
        (λ books. record books { consignments = books.consignments ++ opened (seen_header row.now) ∷ [] })) }
{
    execute(tx, INSERT_HEADER, &row.values())
}

const UPDATE_RECEIVED: &str =
    "UPDATE consignment SET received = 1 WHERE source = ?1 AND addressee = ?2 AND number = ?3";

/// Sets that the consignment is received. A consignment that isn't there is not made. After a fault the transaction
/// may be rolled back.
pub fn set_received<S: Alter>(
    tx: &mut Transaction<'_, S>,
    key: &ConsignmentKey,
) -> Result<(), StoreFault>
    ensures { DoesInside S.Store tx.old.conn tx.new.conn result
        (λ _. Stores (IsOnce key.now.source key.now.addressee key.now.number)
        (with_received key.now.source key.now.addressee key.now.number)) }
{
    execute(
        tx,
        UPDATE_RECEIVED,
        &[
            key.source.get().to_sql(),
            key.addressee.get().to_sql(),
            key.number.get().to_sql(),
        ],
    )
}
