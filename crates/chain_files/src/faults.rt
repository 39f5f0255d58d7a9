//! Why there is no chain.

ghost use Rattle.std.specs.Prelude.{◌≡◌, ◌≢◌, true, Some};
ghost use Rattle.chain_files.specs.Faults.{fault_name, is_store_fault, open_fault_for};

use sql_rows::StoreFault;
use std::fmt;

/// Why there is no chain.
#[derive(Clone, Copy, Debug)]
pub enum OpenFault {
    /// Out of memory.
    Memory,
    /// The store can hold no more.
    Size,
    /// The store failed.
    Store,
    /// The files hold no chain of shops.
    NotAChain,
    /// The files hold a chain of another version.
    OtherVersion,
    /// The files hold a chain whose tables stand for no sound books. The chain is of this version, or of version 1 if
    /// it was to be migrated.
    Damaged,
    /// A chain was to be made, but the files already hold tables. Or a chain of version 1 was to be migrated, but the
    /// files already hold a chain of this version.
    Already,
}

impl fmt::Display for OpenFault {
    ghost output = { λ fault. Some (fault_name fault) };

    fn fmt<W: fmt::Write>(&self, f: &mut fmt::Formatter<W>) -> fmt::Result {
        f.write_str(match self {
            OpenFault::Memory => "memory",
            OpenFault::Size => "size",
            OpenFault::Store => "store_failed",
            OpenFault::NotAChain => "not_a_chain",
            OpenFault::OtherVersion => "other_version",
            OpenFault::Damaged => "damaged",
            OpenFault::Already => "already",
        })
    }
}

/// Returns the fault of opening for a fault of the store.
pub fn open_fault(fault: StoreFault) -> OpenFault
    ensures told { result ≡ open_fault_for fault }
    ensures store { is_store_fault result ≡ true }
    ensures chain { result ≢ OpenFault.NotAChain }
    ensures version { result ≢ OpenFault.OtherVersion }
    ensures damaged { result ≢ OpenFault.Damaged }
    ensures already { result ≢ OpenFault.Already }
{
    match fault {
        StoreFault::Memory => OpenFault::Memory,
        StoreFault::Size => OpenFault::Size,
        StoreFault::Failed => OpenFault::Store,
    }
}
