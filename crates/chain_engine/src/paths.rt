//! A chain in a file of the operating system, and the log beside it.

ghost use Rattle.std.specs.Prelude.{◌≡◌, ◌⊎◌, true, false, None, IfOk, IfErr, IfSome};
ghost use Rattle.sqlite_std_file.specs.File.{IsFresh};
ghost use Rattle.shop_schema.specs.Shop.{first_books};
ghost use Rattle.chain_files.specs.Faults.{IsMissing, IsUnopened};
ghost use Rattle.chain_files.specs.Openings.{IsCreated, IsNotCreated, IsOpenedIn, IsNotOpened, IsMigratedIn, IsNotMigrated};

use crate::chain::Chain;
use chain_files::{OpenFault, files_at, is_missing};
use shop_types::{Limits, Token};
use sqlite::{FileStore, Files};
use sqlite_disk::Disk;
use sqlite_std_file::File;

/// Why there is no chain at a path, and the path's files as they are left. There are none if the path has no file, or if
/// the files can't be opened.
pub type NotAtPath = (OpenFault, Option<Files<File>>);

impl Chain<FileStore<File>> {
    /// Makes a chain with head office's token and no shared row in the file. A missing file is made. Fails with
    /// `Already` if the file holds tables, which stay as they are. A fault gives the opened files back.
    pub fn create(
        rt: &HostRuntime,
        path: &str,
        limits: Limits,
        office: &Token,
    ) -> Result<Chain<FileStore<File>>, NotAtPath>
        ensures made { IfOk result (λ chain. (files : _) × IsFresh true files.log × IsFresh false files.db
            × IsCreated files limits (first_books office.now) chain) }
        ensures refused { IfErr result (λ e. IfSome e.1 (λ left. (files : _) × IsFresh true files.log
            × IsFresh false files.db × IsNotCreated ⟦<File as Disk>⟧ files (first_books office.now) e.0 left)) }
        ensures unopened { IfErr result (λ e. e.1 ≡ None → IsUnopened e.0) }
    {
        let files = match files_at(rt, path) {
            Ok(files) => files,
            Err(fault) => return Err((fault, None)),
        };
        match Chain::create_files(rt.alloc(), files, limits, office) {
            Ok(chain) => Ok(chain),
            Err((fault, left)) => Err((fault, Some(left))),
        }
    }

    /// Opens the chain that the file holds. The limits apply to this opening. Fails with `NotAChain` also if there is
    /// no file, and then makes none. A fault gives the opened files back.
    pub fn open(
        rt: &HostRuntime,
        path: &str,
        limits: Limits,
    ) -> Result<Chain<FileStore<File>>, NotAtPath>
        ensures opened { IfOk result (λ chain. (files : _) × IsFresh true files.log × IsFresh false files.db
            × IsOpenedIn files limits chain) }
        ensures refused { IfErr result (λ e. IfSome e.1 (λ left. (files : _) × IsFresh true files.log
            × IsFresh false files.db × IsNotOpened ⟦<File as Disk>⟧ files e.0 left)) }
        ensures unopened { IfErr result (λ e. e.1 ≡ None → IsMissing e.0 ⊎ IsUnopened e.0) }
    {
        if is_missing(rt, path) {
            return Err((OpenFault::NotAChain, None));
        }
        let files = match files_at(rt, path) {
            Ok(files) => files,
            Err(fault) => return Err((fault, None)),
        };
        match Chain::open_files(rt.alloc(), files, limits) {
            Ok(chain) => Ok(chain),
            Err((fault, left)) => Err((fault, Some(left))),
        }
    }

    /// Turns the chain of version 1 that the file holds into one of this version, and opens it. The limits apply to
    /// this opening. Fails with `NotAChain` also if there is no file, and then makes none.
    pub fn migrate(
        rt: &HostRuntime,
        path: &str,
        limits: Limits,
    ) -> Result<Chain<FileStore<File>>, NotAtPath>
        ensures migrated { IfOk result (λ chain. (files : _) × IsFresh true files.log × IsFresh false files.db
            × IsMigratedIn files limits chain) }
        ensures refused { IfErr result (λ e. IfSome e.1 (λ left. (files : _) × IsFresh true files.log
            × IsFresh false files.db × IsNotMigrated ⟦<File as Disk>⟧ files e.0 left)) }
        ensures unopened { IfErr result (λ e. e.1 ≡ None → IsMissing e.0 ⊎ IsUnopened e.0) }
    {
        if is_missing(rt, path) {
            return Err((OpenFault::NotAChain, None));
        }
        let files = match files_at(rt, path) {
            Ok(files) => files,
            Err(fault) => return Err((fault, None)),
        };
        match Chain::migrate_files(rt.alloc(), files, limits) {
            Ok(chain) => Ok(chain),
            Err((fault, left)) => Err((fault, Some(left))),
        }
    }
}
