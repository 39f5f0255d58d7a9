//! How a chain is made in two files that hold nothing.

ghost use Rattle.std.specs.Prelude.{◌≡◌, IfOk, IfErr};
ghost use Rattle.shop_schema.specs.Shop.{first_books};
ghost use Rattle.chain_files.specs.Openings.{IsCreated, IsNotCreated, IsWellOrFaulty};

use crate::chain::Chain;
use chain_files::{FirstRows, OpenFault, connect, create, first_values};
use shop_types::{Limits, Token};
use sql_files::close;
use sqlite::{FileStore, Files};
use sqlite_disk::Disk;
use std::alloc::Global;

impl<D: Disk + Drop> Chain<FileStore<D>> {
    /// Makes a chain with head office's token and no shared row in files that hold no table. A fault gives the files
    /// back. It is `Already` if they hold tables, which stay as they are. It is `Memory`, `Size` or `Store` if the
    /// store can't do its part. The files then hold no table, or the whole chain without a row.
    pub fn create_files(
        alloc: Global,
        files: Files<D>,
        limits: Limits,
        office: &Token,
    ) -> Result<Chain<FileStore<D>>, (OpenFault, Files<D>)>
        ensures made { IfOk result (λ chain. IsCreated files limits (first_books office.now) chain) }
        ensures well { IfOk result IsWellOrFaulty }
        ensures refused { IfErr result (λ e. IsNotCreated D.Disk files (first_books office.now) e.0 e.1) }
    {
        let first = FirstRows::OfOffice(office);
        first_values(&first);
        let mut conn = connect(alloc, files)?;
        match create(&mut conn, &first) {
            Ok(()) => Ok(Chain::over(alloc, conn, limits)),
            Err(fault) => Err((fault, close(conn))),
        }
    }
}
