//! The two files at a path of the operating system.

ghost use Rattle.std.specs.Prelude.{true, false, IfOk, IfErr};
ghost use Rattle.sqlite_std_file.specs.File.{IsFresh};
ghost use Rattle.chain_files.specs.Faults.{IsUnopened};

use crate::faults::OpenFault;
use sqlite_disk::{Files, Unknown};
use sqlite_std_file::{File, OpenError};
use std::fs::metadata;
use std::io;

/// Opens the two files, or returns why they can't be opened.
pub fn files_at(rt: &HostRuntime, path: &str) -> Result<Files<File>, OpenFault>
    ensures fresh { IfOk result (λ files. IsFresh true files.log × IsFresh false files.db) }
    ensures unopened { IfErr result IsUnopened }
{
    match sqlite_std_file::open(rt, path, Unknown) {
        Ok(files) => Ok(files),
        Err(OpenError::OutOfMemory) => Err(OpenFault::Memory),
        Err(_) => Err(OpenFault::Store),
    }
}

/// Returns whether there is no file at the path.
pub fn is_missing(rt: &HostRuntime, path: &str) -> bool {
    match metadata(rt, path) {
        Err(error) => error.kind() == io::ErrorKind::NotFound,
        Ok(_) => false,
    }
}
