//! Whole consignments: what a dispatch adds, and what a receipt sets.

ghost use Rattle.std.specs.Prelude.{◌≡◌, ◌≤◌, ◌==◌, [], ◌∷◌, ◌++◌, length, map};
ghost use Rattle.std.specs.List.{list_any};
ghost use Rattle.sql_rows.specs.Calls.{DoesInside, DoesWithin};
ghost use Rattle.shop_model.specs.Rows.{mem, update_where};
ghost use Rattle.shop_model.specs.Books.{is_consignment, checked};
ghost use Rattle.shop_ledger.specs.Calls.{Stores};
ghost use Rattle.consign_store.specs.Parts.{IsOnce};
ghost use Rattle.consign_store.specs.Parcels.{IsNewKey, HasSoMany, HasNoLine, sent_off, with_lines, sent_line, state_at, with_checked_to};
ghost use Rattle.shop_types.specs.Seen.{seen_line_state};

use crate::headers::{HeaderRow, put_header, set_received};
use crate::keys::ConsignmentKey;
use crate::lines::{LineRow, put_line, set_line};
use shop_schema::DispatchPlace;
use shop_types::{LineNo, LineState, ParcelLine, ParcelLines};
use sql_rows::StoreFault;
use sqlite::{Alter, Transaction};

/// Adds the lines, under way, to a consignment that has none. After a fault the transaction may be rolled back.
fn put_lines<S: Alter>(
    tx: &mut Transaction<'_, S>,
    key: &ConsignmentKey,
    lines: &[ParcelLine],
) -> Result<(), StoreFault>
    requires few { length lines.now ≤ 100 }
    ensures { DoesWithin S.Store tx.old.conn tx.new.conn result
        (λ _. Stores (HasNoLine key.now.source key.now.addressee key.now.number)
        (with_lines key.now.source key.now.addressee key.now.number (map sent_line lines.now))) }
{
    let mut number = 1u32;
    for line in lines {
        let row = LineRow {
            key: *key,
            line: LineNo::new(number).unwrap(),
            film: line.film,
            mark: line.mark,
            state: LineState::UnderWay,
        };
        put_line(tx, &row)?;
        number += 1;
    }
    Ok(())
}

/// Adds the consignment with its lines, which are under way. After a fault the transaction may be rolled back.
pub fn put_consignment<S: Alter>(
    tx: &mut Transaction<'_, S>,
    key: &ConsignmentKey,
    place: DispatchPlace,
    lines: &ParcelLines,
) -> Result<(), StoreFault>
    ensures { DoesInside S.Store tx.old.conn tx.new.conn result
        (λ _. Stores (IsNewKey key.now.source key.now.addressee key.now.number)
        (λ books. record books {
          consignments = books.consignments ++ sent_off key.now.source key.now.addressee key.now.number place
              (map sent_line lines.now) ∷ [];
        })) }
{
    let header = HeaderRow {
        key: *key,
        place,
        received: false,
    };
    put_header(tx, &header)?;
    put_lines(tx, key, lines.as_slice())
}

fn has_line(lines: &[LineNo], line: u32) -> bool
    ensures { result ≡ list_any (λ it. it == line) lines.now }
{
    lines.iter().any(|it| it.get() == line)
}

/// Returns whether the line is among `lines`.
#[tactic(auto, using(crate::proofs::ParcelSteps::any_mem))]
fn is_among(lines: &[LineNo], line: u32) -> bool
    ensures { result ≡ mem line lines.now }
{
    has_line(lines, line)
}

/// Returns the state of the line after the receipt.
fn state_after(missing: &[LineNo], line: LineNo) -> LineState
    ensures { seen_line_state result ≡ state_at missing.now line }
{
    if is_among(missing, line.get()) {
        LineState::Missing
    } else {
        LineState::Arrived
    }
}

/// Sets the states of the consignment's first `count` lines. The lines in `missing` are missing, and the others
/// arrived. After a fault the transaction may be rolled back.
fn check_lines<S: Alter>(
    tx: &mut Transaction<'_, S>,
    key: &ConsignmentKey,
    count: u32,
    missing: &[LineNo],
) -> Result<(), StoreFault>
    ensures { DoesWithin S.Store tx.old.conn tx.new.conn result
        (λ _. Stores (IsOnce key.now.source key.now.addressee key.now.number)
        (with_checked_to key.now.source key.now.addressee key.now.number missing.now count)) }
{
    for done in 0..count {
        let line = LineNo::new(done + 1).unwrap();
        set_line(tx, key, line, state_after(missing, line))?;
    }
    Ok(())
}

/// Sets that the consignment, which has `count` lines, is received. The lines in `missing` are missing, and the others
/// arrived. After a fault the transaction may be rolled back.
pub fn mark_received<S: Alter>(
    tx: &mut Transaction<'_, S>,
    key: &ConsignmentKey,
    count: u32,
    missing: &[LineNo],
) -> Result<(), StoreFault>
    ensures { DoesWithin S.Store tx.old.conn tx.new.conn result
        (λ _. Stores (HasSoMany key.now.source key.now.addressee key.now.number count)
        (λ books. record books {
          consignments = update_where (is_consignment key.now.source key.now.addressee key.now.number)
              (checked missing.now) books.consignments;
        })) }
{
    check_lines(tx, key, count, missing)?;
    set_received(tx, key)
}
