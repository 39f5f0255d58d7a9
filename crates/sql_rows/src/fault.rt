ghost use Rattle.std.specs.Prelude.{◌≡◌};
ghost use Rattle.sql_rows.specs.Fault.{fault_of};

use sqlite::{Error, ErrorCode};
use std::alloc::{AllocError, AllocFailed};

/// Why a call of the store did nothing that counts.
#[derive(Clone, Copy, Debug, Drop)]
pub enum StoreFault {
    /// There was no memory left.
    Memory,
    /// The store can hold no more.
    Size,
    /// The store failed, or holds what the program can't read.
    Failed,
}

/// Returns the fault that reports an error of the database.
pub fn fault_of(error: Error) -> StoreFault
    ensures { result ≡ fault_of error }
{
    match error {
        Error::SqliteFailure(ErrorCode::OutOfMemory) => StoreFault::Memory,
        Error::SqliteFailure(ErrorCode::TooBig) => StoreFault::Size,
        _ => StoreFault::Failed,
    }
}

impl From<AllocError> for StoreFault {
    ghost use Rattle.std.specs.Prelude.{◌≡◌};
    ghost use Rattle.sql_rows.specs.declared.fault.StoreFault.TheVariants.{Memory};

    ghost from_gives = { λ _ e. e ≡ Memory };

    fn from(_: AllocError) -> StoreFault {
        StoreFault::Memory
    }
}

impl<T: Drop> From<AllocFailed<T>> for StoreFault {
    ghost use Rattle.std.specs.Prelude.{◌≡◌};
    ghost use Rattle.sql_rows.specs.declared.fault.StoreFault.TheVariants.{Memory};

    ghost from_gives = { λ _ e. e ≡ Memory };

    fn from(_: AllocFailed<T>) -> StoreFault {
        StoreFault::Memory
    }
}
