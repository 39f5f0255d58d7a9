//! Stops a book at some call, lets its disks crash, and opens the book again.

ghost use Rattle.std.specs.Prelude.{◌≡◌, ◌⊎◌, false, IfOk};
ghost use Rattle.sqlite.specs.State.{HasCleanDisk};
ghost use Rattle.sqlite.specs.Files.{file_state};
ghost use Rattle.till_book.specs.Journal.{Journal, IsUnsettled, with_entry, with_reply, with_settled};
ghost use Rattle.till_book.specs.Steps.{Rests, IsNext, IsNextReply};
ghost use Rattle.till_files.specs.Files.{LeavesEither};

use crate::faults::BookFault;
use crate::files::close_book;
use crate::opening::open_book;
use counter_routes::Routes;
use sql_files::crashed;
use sqlite::{Connection, FileStore, Files};
use sqlite_disk::Crash;
use std::alloc::Global;
use till_book::{enter, note_settled, record};

/// Stops a book, lets its disks crash, and opens the files that are left. The opened book is the book that rested. If a
/// change was under way, or its outcome wasn't known, the opened book is the book before or after the change.
pub fn restart_book<D: Crash + Drop>(
    alloc: Global,
    conn: Connection<FileStore<D>>,
) -> Result<Connection<FileStore<D>>, (BookFault, Files<D>)>
    ensures ended { IfOk result (λ again. again.in_transaction ≡ false) }
    ensures honest { IfOk result (λ again. HasCleanDisk (file_state again) → HasCleanDisk (file_state conn)) }
    ensures same { IfOk result (λ again. HasCleanDisk (file_state again) → (journal : Journal)
        → Rests (file_state conn) journal → Rests (file_state again) journal) }
    ensures either { IfOk result (λ again. HasCleanDisk (file_state again) → (journal besides : Journal)
        → (HasCleanDisk (file_state conn) → LeavesEither (file_state conn) journal besides)
        → ∥ Rests (file_state again) journal ⊎ Rests (file_state again) besides ∥₁) }
{
    open_book(alloc, crashed(close_book(conn)))
}

/// Enters a request and is stopped at any call during that or after it. Then the disks crash, and the files that are
/// left are opened. The opened book is the book before the entry or the book with the entry.
pub fn enter_over_a_stop<D: Crash + Drop>(
    alloc: Global,
    conn: Connection<FileStore<D>>,
    number: u32,
    request: &[u8],
) -> Result<Connection<FileStore<D>>, (BookFault, Files<D>)>
    requires { conn.in_transaction ≡ false }
    ensures either { IfOk result (λ again. HasCleanDisk (file_state again) → (journal : Journal)
        → Rests (file_state conn) journal → IsNext number journal
        → ∥ Rests (file_state again) journal ⊎ Rests (file_state again) (with_entry request.now journal) ∥₁) }
{
    let mut conn = conn;
    let _stopped = enter(&mut conn, number, request);
    restart_book(alloc, conn)
}

/// Records a reply and is stopped at any call during that or after it. Then the disks crash, and the files that are
/// left are opened. The opened book is the book before the reply or the book with the reply.
pub fn record_over_a_stop<D: Crash + Drop>(
    alloc: Global,
    routes: &Routes,
    conn: Connection<FileStore<D>>,
    number: u32,
    status: u32,
    body: &[u8],
) -> Result<Connection<FileStore<D>>, (BookFault, Files<D>)>
    requires { conn.in_transaction ≡ false }
    ensures either { IfOk result (λ again. HasCleanDisk (file_state again) → (journal : Journal)
        → Rests (file_state conn) journal → IsNextReply number journal
        → ∥ Rests (file_state again) journal ⊎ Rests (file_state again)
        (with_reply (record { status = status; body = body.now }) journal) ∥₁) }
{
    let mut conn = conn;
    let _stopped = record(alloc, routes, &mut conn, number, status, body);
    restart_book(alloc, conn)
}

/// Records a settlement and is stopped at any call during that or after it. Then the disks crash, and the files that
/// are left are opened. The opened book is the book before the settlement or the book with the settlement.
pub fn note_settled_over_a_stop<D: Crash + Drop>(
    alloc: Global,
    routes: &Routes,
    conn: Connection<FileStore<D>>,
    number: u32,
    status: u32,
    body: &[u8],
) -> Result<Connection<FileStore<D>>, (BookFault, Files<D>)>
    requires { conn.in_transaction ≡ false }
    ensures either { IfOk result (λ again. HasCleanDisk (file_state again) → (journal : Journal)
        → Rests (file_state conn) journal → IsUnsettled number journal
        → ∥ Rests (file_state again) journal ⊎ Rests (file_state again)
        (with_settled number (record { status = status; body = body.now }) journal) ∥₁) }
{
    let mut conn = conn;
    let _stopped = note_settled(alloc, routes, &mut conn, number, status, body);
    restart_book(alloc, conn)
}
