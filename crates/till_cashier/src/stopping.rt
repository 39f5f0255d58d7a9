//! Stops a word at some call, lets the disks crash, and opens the book again.

ghost use Rattle.std.specs.Prelude.{◌≡◌, false, None, IfOk, IsSome};
ghost use Rattle.sqlite.specs.State.{HasCleanDisk};
ghost use Rattle.sqlite.specs.Files.{file_state};
ghost use Rattle.till_work.specs.Exchanged.{IsExchanged};
ghost use Rattle.till_cashier.specs.Clock.{local_clock};
ghost use Rattle.till_cashier.specs.Faults.{giver_of};
ghost use Rattle.till_cashier.specs.Stops.{OpensATillsBook, OpensABook, OpensWord};

use crate::caches::Shelf;
use crate::clock::WallClock;
use crate::desk::Desk;
use crate::word::do_word;
use sql_files::crashed;
use sqlite::{Connection, FileStore, Files};
use sqlite_disk::Crash;
use till_files::{BookFault, close_book, open_book};
use till_words::TillAct;
use till_work::{Server, Watch};

/// Does a word and is stopped at any call during that or after it. Then the disks crash, and the files that are left
/// are opened. The opened book has what was in the book, and besides at most a front of what the word does. A till's
/// book is one still.
pub fn do_word_over_a_stop<D: Crash + Drop, K: WallClock, V: Server, L: Shelf, W: Watch>(
    desk: &Desk<'_, K, V, L>,
    conn: Connection<FileStore<D>>,
    act: TillAct,
    watch: &mut W,
) -> Result<Connection<FileStore<D>>, (BookFault, Files<D>)>
    requires { conn.in_transaction ≡ false }
    ensures ended { IfOk result (λ again. again.in_transaction ≡ false) }
    ensures honest { IfOk result (λ again. HasCleanDisk (file_state again) → HasCleanDisk (file_state conn)) }
    ensures keeps { IfOk result (λ again. HasCleanDisk (file_state again) → IsSome desk.now.settings.now.staff
        → OpensATillsBook (IsExchanged (V.opens desk.now.server.now) V.Reader.remaining V.Writer.contents)
        desk.now.settings.now.mark (file_state conn) (file_state again)) }
    ensures office { IfOk result (λ again. HasCleanDisk (file_state again) → desk.now.settings.now.staff ≡ None
        → OpensABook (IsExchanged (V.opens desk.now.server.now) V.Reader.remaining V.Writer.contents)
        (file_state conn) (file_state again)) }
    ensures enters { IfOk result (λ again. HasCleanDisk (file_state again)
        → OpensWord (IsExchanged (V.opens desk.now.server.now) V.Reader.remaining V.Writer.contents)
        (local_clock (K.shows desk.now.clock.now) desk.now.settings.now.zone) desk.now.settings.now.mark desk.now.settings.now.token
        (giver_of desk.now.settings.now.staff desk.now.staff) desk.now.sheet.now act (file_state conn) (file_state again)) }
{
    let mut conn = conn;
    let _stopped = do_word(desk, &mut conn, act, watch);
    open_book(desk.alloc, crashed(close_book(conn)))
}
