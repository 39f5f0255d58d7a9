//! Opens the database in two files, and gives the files back.

ghost use Rattle.std.specs.Prelude.{◌≡◌, ◌↔◌, IsTrue, IfOk, IfErr};
ghost use Rattle.sqlite.specs.Held.{IsNew};
ghost use Rattle.sqlite.specs.State.{HasCleanDisk};
ghost use Rattle.sqlite.specs.Files.{Finds, IsOpened, file_state, image_of};
ghost use Rattle.sqlite_wal.specs.Files.{outcomes};
ghost use Rattle.sqlite_wal.specs.Reads.{AreClean};
ghost use Rattle.sqlite_wal.specs.Recovery.{Image};
ghost use Rattle.sql_rows.specs.Books.{no_schema};
ghost use Rattle.sql_rows.specs.Files.{HoldsOne, OpenFailed};

use sql_rows::{StoreFault, fault_of};
use sqlite::{Connection, FileStore, Files, Options};
use sqlite_disk::{Crash, Disk};
use sqlite_schema::schema::Schema;
use std::alloc::Global;

/// Opens the database in the files. If the store fails, the error has the files.
pub fn connect<D: Disk + Drop>(
    alloc: Global,
    files: Files<D>,
) -> Result<Connection<FileStore<D>>, (StoreFault, Files<D>)>
    ensures opened { IfOk result (λ conn. HasCleanDisk (file_state conn) → IsOpened conn) }
    ensures found { IfOk result (λ conn. HasCleanDisk (file_state conn) → Finds files conn) }
    ensures fresh { IfOk result IsNew }
    ensures left { IfErr result (λ e. OpenFailed D.Disk files e.1) }
{
    if !files.may_be_used() {
        return Err((StoreFault::Failed, files));
    }
    match Connection::open_files(alloc, files, Options::new(1)) {
        Ok(conn) => Ok(conn),
        Err((error, left)) => Err((fault_of(error), left.into_files())),
    }
}

/// Closes the store and returns the files. Nothing more is written, so the last commits may be only in the log.
pub fn close<D: Disk + Drop>(conn: Connection<FileStore<D>>) -> Files<D>
    ensures left { AreClean D.Disk result.log result.db → HoldsOne D.Disk result (file_state conn).may_leave }
    ensures clean { AreClean D.Disk result.log result.db → HasCleanDisk (file_state conn) }
    ensures seen { outcomes D.Disk result.log result.db (image_of D.Disk result) }
{
    conn.into_store().close()
}

/// Crashes the disks of both files, and returns the files as the crash leaves them.
pub fn crashed<D: Crash + Drop>(files: Files<D>) -> Files<D>
    ensures left { (image : Image) → outcomes D.Disk result.log result.db image
        → outcomes D.Disk files.log files.db image }
    ensures clean { AreClean D.Disk result.log result.db → AreClean D.Disk files.log files.db }
{
    let Files { mut log, mut db } = files;
    log.crash();
    db.crash();
    Files { log, db }
}

/// Reports whether the schema has no table, index or view.
pub fn has_no_table(schema: &Schema) -> bool
    ensures { IsTrue result ↔ (schema.now ≡ no_schema) }
{
    schema.tables.is_empty() && schema.indexes.is_empty() && schema.views.is_empty()
}
