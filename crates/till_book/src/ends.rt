//! How far a book goes, and which of its entries are still unsure.

ghost use Rattle.std.specs.Prelude.{◌≡◌, ⊤, [], ◌∷◌, map, option_map, length, take};
ghost use Rattle.sqlite.specs.declared.types.Value.TheVariants.{Blob};
ghost use Rattle.sql_rows.specs.Calls.{DoesInside};
ghost use Rattle.sql_rows.specs.Rows.{number_value};
ghost use Rattle.till_book.specs.Journal.{Journal, Finds};
ghost use Rattle.till_book.specs.Ends.{IsEndOf, seen_last, last_entry, last_reply, last_accepted, unsure_before};

use sql_rows::{Bytes, StoreFault, Stored, bytes_at, number_at, query_all, query_one};
use sqlite::types::ToSql;
use sqlite::{Alter, Row, Transaction};
use std::alloc::Global;

/// How many entries and replies a book has, and its last entry.
#[derive(Drop)]
pub struct BookEnd {
    pub entries: u32,
    pub replies: u32,
    pub last: Option<Bytes>,
}

/// The number of an entry.
#[derive(Clone, Copy, Drop)]
pub struct EntryNumber {
    pub number: u32,
}

/// An entry with its number.
#[derive(Drop)]
struct LastEntry {
    number: u32,
    request: Bytes,
}

impl Stored for EntryNumber {
    ghost columns = { λ row. number_value row.number ∷ [] };

    ghost fits = { λ _. ⊤ };

    ghost refuses = { λ _. ⊤ };

    fn read(row: &Row) -> Result<EntryNumber, StoreFault> {
        if row.column_count() != 1 {
            return Err(StoreFault::Failed);
        }
        Ok(EntryNumber {
            number: number_at(row, 0)?,
        })
    }
}

impl Stored for LastEntry {
    ghost columns = { λ row. number_value row.number ∷ Blob row.request ∷ [] };

    ghost fits = { λ _. ⊤ };

    ghost refuses = { λ _. ⊤ };

    fn read(row: &Row) -> Result<LastEntry, StoreFault> {
        if row.column_count() != 2 {
            return Err(StoreFault::Failed);
        }
        Ok(LastEntry {
            number: number_at(row, 0)?,
            request: bytes_at(row, 1)?,
        })
    }
}

const SELECT_LAST_ENTRY: &str = "SELECT number, request FROM entry ORDER BY number DESC LIMIT 1";

/// Returns the last entry, if there is one.
fn last_entry<S: Alter>(tx: &mut Transaction<'_, S>) -> Result<Option<LastEntry>, StoreFault>
    ensures { DoesInside S.Store tx.old.conn tx.new.conn result
        (λ it. Finds (λ journal. option_map seen_last it ≡ last_entry journal)) }
{
    query_one(tx, SELECT_LAST_ENTRY, &[])
}

const SELECT_LAST_REPLY: &str = "SELECT number FROM reply ORDER BY number DESC LIMIT 1";

/// Returns the number of the last reply, if there is one.
fn last_reply<S: Alter>(tx: &mut Transaction<'_, S>) -> Result<Option<EntryNumber>, StoreFault>
    ensures { DoesInside S.Store tx.old.conn tx.new.conn result
        (λ it. Finds (λ journal. option_map (λ row. row.number) it ≡ last_reply journal)) }
{
    query_one(tx, SELECT_LAST_REPLY, &[])
}

/// Counts the replies by the number of the last.
fn count_by(last: Option<EntryNumber>) -> u32
    ensures { (journal : Journal) → option_map (λ row. row.number) last ≡ last_reply journal
        → result ≡ length journal.replies }
{
    match last {
        Some(it) => it.number,
        None => 0,
    }
}

/// Counts the replies.
pub fn reply_count<S: Alter>(tx: &mut Transaction<'_, S>) -> Result<u32, StoreFault>
    ensures { DoesInside S.Store tx.old.conn tx.new.conn result
        (λ n. Finds (λ journal. n ≡ length journal.replies)) }
{
    let last = last_reply(tx)?;
    Ok(count_by(last))
}

/// Makes the end of a book from its last entry and the count of its replies.
fn end_with(last: Option<LastEntry>, replies: u32) -> BookEnd
    ensures { (journal : Journal) → option_map seen_last last ≡ last_entry journal
        → replies ≡ length journal.replies → IsEndOf result journal }
{
    match last {
        Some(it) => BookEnd {
            entries: it.number,
            replies,
            last: Some(it.request),
        },
        None => BookEnd {
            entries: 0,
            replies,
            last: None,
        },
    }
}

/// Reads how far the book goes.
pub fn end_of<S: Alter>(tx: &mut Transaction<'_, S>) -> Result<BookEnd, StoreFault>
    ensures { DoesInside S.Store tx.old.conn tx.new.conn result (λ it. Finds (IsEndOf it)) }
{
    let last = last_entry(tx)?;
    let replies = reply_count(tx)?;
    Ok(end_with(last, replies))
}

const SELECT_LAST_ACCEPTED: &str =
    "SELECT number FROM reply WHERE status = 200 ORDER BY number DESC LIMIT 1";

/// Returns the number of the last entry that its reply accepted, if there is one.
pub fn last_accepted_entry<S: Alter>(
    tx: &mut Transaction<'_, S>,
) -> Result<Option<EntryNumber>, StoreFault>
    ensures { DoesInside S.Store tx.old.conn tx.new.conn result
        (λ it. Finds (λ journal. option_map (λ row. row.number) it ≡ last_accepted journal)) }
{
    query_one(tx, SELECT_LAST_ACCEPTED, &[])
}

const SELECT_UNSURE: &str = "SELECT number FROM unsure WHERE number < ?1 ORDER BY number LIMIT 10";

/// Returns the first ten entries before that number that are unsure.
pub fn unsure_entries<S: Alter>(
    alloc: Global,
    tx: &mut Transaction<'_, S>,
    number: u32,
) -> Result<Vec<EntryNumber>, StoreFault>
    ensures { DoesInside S.Store tx.old.conn tx.new.conn result
        (λ all. Finds (λ journal. map (λ row. row.number) all.items ≡ take 10 (unsure_before number journal))) }
{
    query_all(alloc, tx, SELECT_UNSURE, &[number.to_sql()])
}
