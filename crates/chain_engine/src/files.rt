//! A chain in two files: how it is opened, and how it is closed.

ghost use Rattle.std.specs.Prelude.{◌≡◌, ◌≢◌, ◌⊎◌, false, IfOk, IfErr};
ghost use Rattle.sqlite.specs.State.{HasCleanDisk};
ghost use Rattle.sqlite.specs.Files.{over_files, file_state, image_of};
ghost use Rattle.sqlite_wal.specs.Files.{outcomes};
ghost use Rattle.sqlite_wal.specs.Reads.{AreClean};
ghost use Rattle.shop_model.specs.Books.{Books};
ghost use Rattle.chain_requests.specs.Chains.{IsAt};
ghost use Rattle.chain_files.specs.Files.{KeepsBooks, KeepsEither};
ghost use Rattle.sql_rows.specs.Files.{HoldsOne};
ghost use Rattle.chain_files.specs.Openings.{IsOpenedIn, IsNotOpened, IsWellOrFaulty};

use crate::chain::Chain;
use chain_files::{OpenFault, connect, examine};
use shop_types::Limits;
use sql_files::close;
use sqlite::{FileStore, Files};
use sqlite_disk::Disk;
use std::alloc::Global;

impl<D: Disk + Drop> Chain<FileStore<D>> {
    /// Opens the chain that the files hold. The limits apply to this opening. A fault gives the files back. It is
    /// `NotAChain` if they hold none, and `OtherVersion` if the chain's version isn't the program's. It is `Damaged` if
    /// its tables don't hold sound books, and `Memory`, `Size` or `Store` if the store can't do its part.
    pub fn open_files(
        alloc: Global,
        files: Files<D>,
        limits: Limits,
    ) -> Result<Chain<FileStore<D>>, (OpenFault, Files<D>)>
        ensures opened { IfOk result (λ chain. IsOpenedIn files limits chain) }
        ensures well { IfOk result IsWellOrFaulty }
        ensures refused { IfErr result (λ e. IsNotOpened D.Disk files e.0 e.1) }
    {
        let mut conn = connect(alloc, files)?;
        match examine(alloc, &mut conn) {
            Ok(()) => Ok(Chain::over(alloc, conn, limits)),
            Err(fault) => Err((fault, close(conn))),
        }
    }

    /// Gives the files back, which hold what a crash of the chain may leave. If the store hasn't failed, they keep the
    /// chain's books. If it has, they keep the books before the request at which it failed, or the books after it.
    pub fn close(self) -> Files<D>
        ensures keeps { self.is_failed ≡ false → (books besides : Books) → IsAt over_files self books besides
            → KeepsBooks D.Disk result books }
        ensures either { (books besides : Books) → IsAt over_files self books besides
            → KeepsEither D.Disk result books besides }
        ensures left { AreClean D.Disk result.log result.db → HoldsOne D.Disk result (file_state self.conn).may_leave }
        ensures clean { AreClean D.Disk result.log result.db → HasCleanDisk (file_state self.conn) }
        ensures seen { outcomes D.Disk result.log result.db (image_of D.Disk result) }
    {
        let Chain {
            limits: _,
            is_failed: _,
            films: _,
            callers: _,
            conn,
            alloc: _,
        } = self;
        close(conn)
    }

    /// Closes the chain and opens its files again, with the limits that it had. The new chain has the same books. If
    /// the store had failed, it has the books before the request at which it failed, or the books after it. A fault
    /// gives the files back, as `open_files` does, but is never `Damaged`.
    pub fn reopen(self) -> Result<Chain<FileStore<D>>, (OpenFault, Files<D>)>
        ensures live { IfOk result (λ chain. (chain.limits ≡ self.limits) × (chain.is_failed ≡ false)) }
        ensures honest { IfOk result (λ chain. HasCleanDisk (file_state chain.conn)
            → HasCleanDisk (file_state self.conn)) }
        ensures same { IfOk result (λ chain. HasCleanDisk (file_state chain.conn) → self.is_failed ≡ false
            → (books besides : Books) → IsAt over_files self books besides → IsAt over_files chain books books) }
        ensures either { IfOk result (λ chain. HasCleanDisk (file_state chain.conn) → (books besides : Books)
            → IsAt over_files self books besides
            → ∥ IsAt over_files chain books books ⊎ IsAt over_files chain besides besides ∥₁) }
        ensures undamaged { (books besides : Books) → IsAt over_files self books besides
            → IfErr result (λ e. AreClean D.Disk e.1.log e.1.db → e.0 ≢ OpenFault.Damaged) }
        ensures kept { IfErr result (λ e. (closed : _)
            × (self.is_failed ≡ false → (books besides : Books) → IsAt over_files self books besides → KeepsBooks
            D.Disk closed books)
            × ((books besides : Books) → IsAt over_files self books besides → KeepsEither D.Disk closed books
            besides)
            × IsNotOpened D.Disk closed e.0 e.1) }
    {
        let alloc = self.alloc;
        let limits = self.limits;
        Chain::open_files(alloc, self.close(), limits)
    }
}
