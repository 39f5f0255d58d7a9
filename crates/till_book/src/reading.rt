//! Reads the book, whole or from a number on, inside a transaction.

ghost use Rattle.std.specs.Prelude.{◌≡◌, ◌≢◌, ⊤, [], ◌∷◌, drop, IfOk, option_map};
ghost use Rattle.std.specs.Option.{option_to_list};
ghost use Rattle.sqlite.specs.Held.{state};
ghost use Rattle.sqlite.specs.State.{HasCleanDisk};
ghost use Rattle.sqlite.specs.declared.types.Value.TheVariants.{Blob};
ghost use Rattle.sql_rows.specs.Calls.{StaysInside, DoesInside};
ghost use Rattle.sql_rows.specs.Rows.{number_value};
ghost use Rattle.sqlite_value.specs.Order.{column};
ghost use Rattle.till_book.specs.Journal.{Finds, FindsBare, reply_columns, settled_of, reply_of};
ghost use Rattle.till_book.specs.Seen.{seen_reply, seen_settlement};
ghost use Rattle.till_book.specs.Read.{in_order, IsReadOf};
ghost use Rattle.till_book.specs.Ends.{IsReadAfter, settled_after};

use crate::lists::{BookRows, Entries, Replies, Settlements};
use crate::rows::{BookEntry, BookReply, Settlement};
use sql_rows::{StoreFault, Stored, bytes_at, number_at, query_all, query_one};
use sqlite::types::ToSql;
use sqlite::{Alter, Row, Transaction};
use std::alloc::Global;

/// Reads the status in the column.
fn status_at(row: &Row, at: usize) -> Result<u16, StoreFault>
    ensures { IfOk result (λ n. column row.now at ≡ number_value n) }
{
    match u16::try_from(number_at(row, at)?) {
        Ok(status) => Ok(status),
        Err(_) => Err(StoreFault::Failed),
    }
}

impl Stored for BookEntry {
    ghost columns = { λ row. Blob row.request ∷ [] };

    ghost fits = { λ _. ⊤ };

    ghost refuses = { λ _. ⊤ };

    fn read(row: &Row) -> Result<BookEntry, StoreFault> {
        if row.column_count() != 1 {
            return Err(StoreFault::Failed);
        }
        Ok(BookEntry {
            request: bytes_at(row, 0)?,
        })
    }
}

impl Stored for BookReply {
    ghost columns = { λ row. number_value row.status ∷ Blob row.body ∷ [] };

    ghost fits = { λ _. ⊤ };

    ghost refuses = { λ _. ⊤ };

    fn read(row: &Row) -> Result<BookReply, StoreFault> {
        if row.column_count() != 2 {
            return Err(StoreFault::Failed);
        }
        Ok(BookReply {
            status: status_at(row, 0)?,
            body: bytes_at(row, 1)?,
        })
    }
}

impl Stored for Settlement {
    ghost columns = { λ row. reply_columns (seen_settlement row) };

    ghost fits = { λ _. ⊤ };

    ghost refuses = { λ _. ⊤ };

    fn read(row: &Row) -> Result<Settlement, StoreFault> {
        if row.column_count() != 3 {
            return Err(StoreFault::Failed);
        }
        Ok(Settlement {
            number: number_at(row, 0)?,
            reply: BookReply {
                status: status_at(row, 1)?,
                body: bytes_at(row, 2)?,
            },
        })
    }
}

const SELECT_ENTRIES: &str = "SELECT request FROM entry ORDER BY number";

/// Reads the requests, in order.
fn all_entries<S: Alter>(alloc: Global, tx: &mut Transaction<'_, S>) -> Result<Entries, StoreFault>
    ensures inside { StaysInside S.Store tx.old.conn tx.new.conn result }
    ensures found { HasCleanDisk (state S.Store tx.new.conn.now)
        → IfOk result (λ it. Finds (λ journal. it ≡ journal.entries) (state S.Store tx.old.conn.now)
        (state S.Store tx.new.conn.now)) }
    ensures bare { HasCleanDisk (state S.Store tx.new.conn.now)
        → IfOk result (λ it. FindsBare (λ journal. it ≡ journal.entries) (state S.Store tx.old.conn.now)
        (state S.Store tx.new.conn.now)) }
{
    let rows = query_all(alloc, tx, SELECT_ENTRIES, &[])?;
    Ok(Entries::new(rows))
}

const SELECT_REPLIES: &str = "SELECT status, body FROM reply ORDER BY number";

/// Reads the replies, in order.
fn all_replies<S: Alter>(alloc: Global, tx: &mut Transaction<'_, S>) -> Result<Replies, StoreFault>
    ensures inside { StaysInside S.Store tx.old.conn tx.new.conn result }
    ensures found { HasCleanDisk (state S.Store tx.new.conn.now)
        → IfOk result (λ it. Finds (λ journal. it ≡ journal.replies) (state S.Store tx.old.conn.now)
        (state S.Store tx.new.conn.now)) }
    ensures bare { HasCleanDisk (state S.Store tx.new.conn.now)
        → IfOk result (λ it. FindsBare (λ journal. it ≡ journal.replies) (state S.Store tx.old.conn.now)
        (state S.Store tx.new.conn.now)) }
{
    let rows = query_all(alloc, tx, SELECT_REPLIES, &[])?;
    Ok(Replies::new(rows))
}

const SELECT_ALL_SETTLED: &str = "SELECT number, status, body FROM settled ORDER BY number";

/// Reads the replies that settled entries, in the order of the entries.
pub fn all_settled<S: Alter>(
    alloc: Global,
    tx: &mut Transaction<'_, S>,
) -> Result<Settlements, StoreFault>
    ensures inside { StaysInside S.Store tx.old.conn tx.new.conn result }
    ensures found { HasCleanDisk (state S.Store tx.new.conn.now)
        → IfOk result (λ it. Finds (λ journal. it ≡ in_order journal.settled) (state S.Store tx.old.conn.now)
        (state S.Store tx.new.conn.now)) }
    ensures bare { HasCleanDisk (state S.Store tx.new.conn.now)
        → IfOk result (λ it. FindsBare (λ journal. it ≡ in_order journal.settled) (state S.Store tx.old.conn.now)
        (state S.Store tx.new.conn.now)) }
{
    let rows = query_all(alloc, tx, SELECT_ALL_SETTLED, &[])?;
    Ok(Settlements::new(rows))
}

/// Reads the whole book, also while the tables beside the journal have no rows.
pub fn all_rows<S: Alter>(
    alloc: Global,
    tx: &mut Transaction<'_, S>,
) -> Result<BookRows, StoreFault>
    ensures inside { StaysInside S.Store tx.old.conn tx.new.conn result }
    ensures found { HasCleanDisk (state S.Store tx.new.conn.now)
        → IfOk result (λ rows. Finds (IsReadOf rows) (state S.Store tx.old.conn.now) (state S.Store tx.new.conn.now)) }
    ensures bare { HasCleanDisk (state S.Store tx.new.conn.now)
        → IfOk result (λ rows. FindsBare (IsReadOf rows) (state S.Store tx.old.conn.now)
        (state S.Store tx.new.conn.now)) }
{
    let entries = all_entries(alloc, tx)?;
    let replies = all_replies(alloc, tx)?;
    let settled = all_settled(alloc, tx)?;
    Ok(BookRows {
        entries,
        replies,
        settled,
    })
}

const SELECT_SETTLED: &str = "SELECT status, body FROM settled WHERE number = ?1";

/// Returns the reply that settled the entry of that number, if one is recorded.
pub fn settled_at<S: Alter>(
    tx: &mut Transaction<'_, S>,
    number: u32,
) -> Result<Option<BookReply>, StoreFault>
    ensures inside { StaysInside S.Store tx.old.conn tx.new.conn result }
    ensures found { HasCleanDisk (state S.Store tx.new.conn.now)
        → IfOk result (λ it. Finds
        (λ journal. option_to_list (option_map seen_reply it) ≡ settled_of number journal.settled)
        (state S.Store tx.old.conn.now) (state S.Store tx.new.conn.now)) }
{
    query_one(tx, SELECT_SETTLED, &[number.to_sql()])
}

const SELECT_REPLY: &str = "SELECT status, body FROM reply WHERE number = ?1";

/// Returns the reply to the entry of that number, if it has one.
pub fn reply_at<S: Alter>(
    tx: &mut Transaction<'_, S>,
    number: u32,
) -> Result<Option<BookReply>, StoreFault>
    ensures { DoesInside S.Store tx.old.conn tx.new.conn result
        (λ it. Finds (λ journal. option_to_list (option_map seen_reply it) ≡ reply_of number journal.replies)) }
{
    query_one(tx, SELECT_REPLY, &[number.to_sql()])
}

const SELECT_ENTRIES_AFTER: &str = "SELECT request FROM entry WHERE number > ?1 ORDER BY number";

/// Reads the requests after that number, in order.
fn entries_after<S: Alter>(
    alloc: Global,
    tx: &mut Transaction<'_, S>,
    number: u32,
) -> Result<Entries, StoreFault>
    ensures { DoesInside S.Store tx.old.conn tx.new.conn result
        (λ it. Finds (λ journal. it ≡ drop number journal.entries)) }
{
    let rows = query_all(alloc, tx, SELECT_ENTRIES_AFTER, &[number.to_sql()])?;
    Ok(Entries::new(rows))
}

const SELECT_REPLIES_AFTER: &str =
    "SELECT status, body FROM reply WHERE number > ?1 ORDER BY number";

/// Reads the replies after that number, in order.
fn replies_after<S: Alter>(
    alloc: Global,
    tx: &mut Transaction<'_, S>,
    number: u32,
) -> Result<Replies, StoreFault>
    ensures { DoesInside S.Store tx.old.conn tx.new.conn result
        (λ it. Finds (λ journal. it ≡ drop number journal.replies)) }
{
    let rows = query_all(alloc, tx, SELECT_REPLIES_AFTER, &[number.to_sql()])?;
    Ok(Replies::new(rows))
}

const SELECT_SETTLED_AFTER: &str =
    "SELECT number, status, body FROM settled WHERE number > ?1 ORDER BY number";

/// Reads the replies that settled entries after that number, in the order of the entries.
fn settled_after<S: Alter>(
    alloc: Global,
    tx: &mut Transaction<'_, S>,
    number: u32,
) -> Result<Settlements, StoreFault>
    ensures { DoesInside S.Store tx.old.conn tx.new.conn result
        (λ it. Finds (λ journal. it ≡ in_order (settled_after number journal.settled))) }
{
    let rows = query_all(alloc, tx, SELECT_SETTLED_AFTER, &[number.to_sql()])?;
    Ok(Settlements::new(rows))
}

/// Reads what the book has after that number.
pub fn rows_after<S: Alter>(
    alloc: Global,
    tx: &mut Transaction<'_, S>,
    number: u32,
) -> Result<BookRows, StoreFault>
    ensures { DoesInside S.Store tx.old.conn tx.new.conn result (λ rows. Finds (IsReadAfter number rows)) }
{
    let entries = entries_after(alloc, tx, number)?;
    let replies = replies_after(alloc, tx, number)?;
    let settled = settled_after(alloc, tx, number)?;
    Ok(BookRows {
        entries,
        replies,
        settled,
    })
}
