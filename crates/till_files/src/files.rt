//! Opens the database in two files, and returns the files.

ghost use Rattle.std.specs.Prelude.{◌≡◌, ◌≢◌, IfOk, IfErr};
ghost use Rattle.sqlite.specs.Held.{IsNew};
ghost use Rattle.sqlite.specs.State.{HasCleanDisk};
ghost use Rattle.sqlite.specs.Files.{Finds, IsOpened, file_state, image_of};
ghost use Rattle.sqlite_wal.specs.Files.{outcomes};
ghost use Rattle.sqlite_wal.specs.Reads.{AreClean};
ghost use Rattle.till_book.specs.Journal.{Journal};
ghost use Rattle.till_book.specs.Steps.{Rests};
ghost use Rattle.till_files.specs.Files.{KeepsBook, KeepsEither, LeavesEither};
ghost use Rattle.sql_rows.specs.Files.{HoldsOne, OpenFailed};

use crate::faults::{BookFault, book_fault};
use sqlite::{Connection, FileStore, Files};
use sqlite_disk::Disk;
use std::alloc::Global;

/// Opens the database in the files. If the store fails, the files are returned with the fault.
pub fn connect<D: Disk + Drop>(
    alloc: Global,
    files: Files<D>,
) -> Result<Connection<FileStore<D>>, (BookFault, Files<D>)>
    ensures opened { IfOk result (λ conn. HasCleanDisk (file_state conn) → IsOpened conn) }
    ensures found { IfOk result (λ conn. HasCleanDisk (file_state conn) → Finds files conn) }
    ensures fresh { IfOk result IsNew }
    ensures left { IfErr result (λ e. OpenFailed D.Disk files e.1) }
    ensures book { IfErr result (λ e. e.0 ≢ BookFault.NotABook) }
    ensures already { IfErr result (λ e. e.0 ≢ BookFault.Already) }
{
    match sql_files::connect(alloc, files) {
        Ok(conn) => Ok(conn),
        Err((fault, left)) => Err((book_fault(fault), left)),
    }
}

/// Returns the files, which hold what a crash may leave. Nothing more is written, so the files keep the resting book.
/// If a change was under way, or its outcome isn't known, the files keep the book before or after the change.
pub fn close_book<D: Disk + Drop>(conn: Connection<FileStore<D>>) -> Files<D>
    ensures keeps { (journal : Journal) → Rests (file_state conn) journal → KeepsBook D.Disk result journal }
    ensures either { (journal besides : Journal)
        → (HasCleanDisk (file_state conn) → LeavesEither (file_state conn) journal besides)
        → KeepsEither D.Disk result journal besides }
    ensures left { AreClean D.Disk result.log result.db → HoldsOne D.Disk result (file_state conn).may_leave }
    ensures clean { AreClean D.Disk result.log result.db → HasCleanDisk (file_state conn) }
    ensures seen { outcomes D.Disk result.log result.db (image_of D.Disk result) }
{
    sql_files::close(conn)
}
