//! How far an open book goes, and whose it is.

ghost use Rattle.std.specs.Prelude.{◌≡◌, false, Some, IfOk, IfErr};
ghost use Rattle.sqlite.specs.Held.{state};
ghost use Rattle.sqlite.specs.State.{HasCleanDisk};
ghost use Rattle.till_model.specs.Numbered.{has_mark};
ghost use Rattle.till_book.specs.Steps.{Stays};
ghost use Rattle.till_cashier.specs.Faults.{IsReading};
ghost use Rattle.till_cashier.specs.LastMoment.{IsMomentOf, TellsMoment};
ghost use Rattle.till_cashier.specs.Word.{IsPlaceOf, KnowsOwn, TellsLastMark, TellsMark};

use crate::fault::TillFault;
use counter_routes::Routes;
use shop_types::{Command, Moment};
use sqlite::{Alter, Connection};
use std::alloc::Global;
use till_book::{BookEnd, read_end};
use till_client::{NotSealed, command_of};
use till_requests::TillMark;
use till_work::Place;

/// How far an open book goes now, and what its last entry shows.
#[derive(Drop)]
pub struct Book {
    pub(crate) place: Place,
    /// The moment of the last entry, if there is one that has a moment.
    pub(crate) last: Option<Moment>,
    /// Whether the last entry was entered with the till's mark, when the book was read. A book with no entry is any
    /// till's.
    pub(crate) is_own: bool,
}

/// What a last entry shows: its moment, if it has one, and whether it was entered with the mark.
#[derive(Drop)]
struct LastEntry {
    at: Option<Moment>,
    is_own: bool,
}

/// Tests whether the key begins with the mark and a hyphen.
fn has_mark(mark: &[u8], key: &[u8]) -> bool
    ensures { result ≡ has_mark mark.now key.now }
{
    match key.strip_prefix(mark) {
        Some(rest) => rest.starts_with(b"-"),
        None => false,
    }
}

/// Tests whether the command's key begins with the mark and a hyphen.
fn is_marked(mark: &TillMark, command: &Command) -> bool
    ensures { result ≡ has_mark mark.now command.now.key }
{
    has_mark(mark.as_bytes().as_slice(), command.key.as_str().as_bytes())
}

/// Tests whether the mark is anywhere in the bytes.
fn is_in(mark: &TillMark, bytes: &[u8]) -> bool {
    let letters = mark.as_bytes().as_slice();
    bytes.windows(letters.len()).any(|piece| piece == letters)
}

/// Reads what an entry shows. A branch's command was entered with the mark if the mark is in its key. In an entry that
/// is no branch's command, as in head office's book, the mark is searched for.
fn shown_by(
    alloc: Global,
    routes: &Routes,
    mark: &TillMark,
    request: &[u8],
) -> Result<LastEntry, TillFault>
    ensures marked { IfOk result (λ it. TellsLastMark mark.now it.is_own (Some request.now)) }
    ensures moment { IfOk result (λ it. IsMomentOf it.at (Some request.now)) }
    ensures fault { IfErr result IsReading }
{
    match command_of(alloc, routes, request) {
        Ok(command) => Ok(LastEntry {
            at: Some(command.at),
            is_own: is_marked(mark, &command),
        }),
        Err(NotSealed::Memory) => Err(TillFault::Memory),
        Err(NotSealed::Other) => Ok(LastEntry {
            at: None,
            is_own: is_in(mark, request),
        }),
    }
}

/// Reads what the last entry shows, if there is one.
fn shown_at(
    alloc: Global,
    routes: &Routes,
    mark: &TillMark,
    end: &BookEnd,
) -> Result<LastEntry, TillFault>
    ensures marked { IfOk result (λ it. TellsLastMark mark.now it.is_own end.now.last) }
    ensures moment { IfOk result (λ it. IsMomentOf it.at end.now.last) }
    ensures fault { IfErr result IsReading }
{
    match &end.last {
        Some(request) => shown_by(alloc, routes, mark, request.as_slice()),
        None => Ok(LastEntry {
            at: None,
            is_own: true,
        }),
    }
}

impl Book {
    /// Reads how far the book goes, whether its last entry was entered with the mark, and that entry's moment. The
    /// book stays. A till's book under that mark is its own.
    pub fn read<S: Alter>(
        alloc: Global,
        routes: &Routes,
        mark: &TillMark,
        conn: &mut Connection<S>,
    ) -> Result<Book, TillFault>
        requires { conn.old.in_transaction ≡ false }
        ensures ended { conn.new.in_transaction ≡ false }
        ensures clean { HasCleanDisk (state S.Store conn.new) → HasCleanDisk (state S.Store conn.old) }
        ensures stays { HasCleanDisk (state S.Store conn.new)
            → Stays (state S.Store conn.old) (state S.Store conn.new) }
        ensures place { HasCleanDisk (state S.Store conn.new)
            → IfOk result (λ book. IsPlaceOf book.place (state S.Store conn.old)) }
        ensures marked { HasCleanDisk (state S.Store conn.new)
            → IfOk result (λ book. TellsMark mark.now book.is_own (state S.Store conn.old)) }
        ensures moment { HasCleanDisk (state S.Store conn.new)
            → IfOk result (λ book. TellsMoment book.last (state S.Store conn.old)) }
        ensures own { HasCleanDisk (state S.Store conn.new)
            → IfOk result (λ book. KnowsOwn mark.now book.is_own (state S.Store conn.old)) }
        ensures fault { IfErr result IsReading }
    {
        let Ok(end) = read_end(conn) else {
            return Err(TillFault::Book);
        };
        let LastEntry { at, is_own } = shown_at(alloc, routes, mark, &end)?;
        let place = Place {
            entries: end.entries,
            replies: end.replies,
        };
        Ok(Book {
            place,
            last: at,
            is_own,
        })
    }
}
