//! How a chain is stopped, its disks crash, and it is opened again.

ghost use Rattle.std.specs.Prelude.{◌≡◌, ◌≢◌, ◌⊎◌, false, IfOk, IfErr};
ghost use Rattle.sqlite.specs.State.{HasCleanDisk};
ghost use Rattle.sqlite.specs.Files.{over_files, file_state};
ghost use Rattle.sqlite_wal.specs.Files.{outcomes};
ghost use Rattle.sqlite_wal.specs.Reads.{AreClean};
ghost use Rattle.sqlite_wal.specs.Recovery.{Image};
ghost use Rattle.shop_model.specs.Books.{Books};
ghost use Rattle.chain_requests.specs.Chains.{IsAt};
ghost use Rattle.chain_files.specs.Files.{KeepsBooks, KeepsEither};
ghost use Rattle.chain_files.specs.Openings.{IsNotOpened};

use crate::chain::Chain;
use chain_files::OpenFault;
use shop_types::Limits;
use sql_files::crashed;
use sqlite::{FileStore, Files};
use sqlite_disk::Crash;
use std::alloc::Global;

/// Stops a chain, lets its disks crash, and opens the files that are left, with the given limits. The new chain has
/// the books of the old one. If the store had failed, it has the books before the request at which it failed, or the
/// books after it. A fault gives the files back, as `open_files` does, but is never `Damaged`. Unless the opening of
/// the database itself failed, the files keep these books, so they may be opened again.
pub fn restart<D: Crash + Drop>(
    alloc: Global,
    chain: Chain<FileStore<D>>,
    limits: Limits,
) -> Result<Chain<FileStore<D>>, (OpenFault, Files<D>)>
    ensures limits { IfOk result (λ again. again.limits ≡ limits) }
    ensures live { IfOk result (λ again. again.is_failed ≡ false) }
    ensures honest { IfOk result (λ again. HasCleanDisk (file_state again.conn)
        → HasCleanDisk (file_state chain.conn)) }
    ensures same { IfOk result (λ again. HasCleanDisk (file_state again.conn) → chain.is_failed ≡ false
        → (books besides : Books) → IsAt over_files chain books besides → IsAt over_files again books books) }
    ensures either { IfOk result (λ again. HasCleanDisk (file_state again.conn) → (books besides : Books)
        → IsAt over_files chain books besides
        → ∥ IsAt over_files again books books ⊎ IsAt over_files again besides besides ∥₁) }
    ensures undamaged { (books besides : Books) → IsAt over_files chain books besides
        → IfErr result (λ e. AreClean D.Disk e.1.log e.1.db → e.0 ≢ OpenFault.Damaged) }
    ensures kept { IfErr result (λ e. (stopped : _)
        × (chain.is_failed ≡ false → (books besides : Books) → IsAt over_files chain books besides → KeepsBooks D.Disk
        stopped books)
        × ((books besides : Books) → IsAt over_files chain books besides → KeepsEither D.Disk stopped books besides)
        × IsNotOpened D.Disk stopped e.0 e.1) }
{
    Chain::open_files(alloc, crashed(chain.close()), limits)
}
