//! How a chain of version 1 in two files becomes one of this version.

ghost use Rattle.std.specs.Prelude.{◌≡◌, IfOk, IfErr};
ghost use Rattle.chain_files.specs.Openings.{IsMigratedIn, IsNotMigrated, IsWellOrFaulty};

use crate::chain::Chain;
use chain_files::{OpenFault, connect, migrate_first};
use shop_types::Limits;
use sql_files::close;
use sqlite::{FileStore, Files};
use sqlite_disk::Disk;
use std::alloc::Global;

impl<D: Disk + Drop> Chain<FileStore<D>> {
    /// Turns the chain of version 1 that the files hold into one of this version, and opens it. Each rental gets its
    /// film's present terms, and all else stays. A fault gives the files back. It is `Already` if they hold a chain
    /// of this version, `NotAChain` if they hold none, and `OtherVersion` if its version is neither. It is `Damaged`
    /// if its tables don't hold sound books, and `Memory`, `Size` or `Store` if the store can't do its part. The
    /// files then hold either version, whole, and may be migrated again.
    pub fn migrate_files(
        alloc: Global,
        files: Files<D>,
        limits: Limits,
    ) -> Result<Chain<FileStore<D>>, (OpenFault, Files<D>)>
        ensures migrated { IfOk result (λ chain. IsMigratedIn files limits chain) }
        ensures well { IfOk result IsWellOrFaulty }
        ensures refused { IfErr result (λ e. IsNotMigrated D.Disk files e.0 e.1) }
    {
        let mut conn = connect(alloc, files)?;
        match migrate_first(alloc, &mut conn) {
            Ok(()) => Ok(Chain::over(alloc, conn, limits)),
            Err(fault) => Err((fault, close(conn))),
        }
    }
}
