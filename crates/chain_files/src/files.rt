//! Opens the database in two files, and reads its version.

ghost use Rattle.std.specs.Prelude.{◌≡◌, ◌≢◌, ◌⊎◌, true, false, Ok, IfOk, OnOk, IfErr, map};
ghost use Rattle.sqlite.specs.Held.{IsNew, state};
ghost use Rattle.sqlite.specs.State.{HasCleanDisk, Survives};
ghost use Rattle.sqlite.specs.Files.{Finds, IsOpened, file_state};
ghost use Rattle.sql_rows.specs.Rows.{columns_of};
ghost use Rattle.shop_model.specs.Books.{Books};
ghost use Rattle.shop_schema.specs.Shop.{HasVersion};
ghost use Rattle.shop_schema.specs.Versions.{version_of};
ghost use Rattle.chain_requests.specs.Chains.{Rests, StaysAsFound};
ghost use Rattle.sql_rows.specs.Files.{OpenFailed};

use crate::faults::{OpenFault, open_fault};
use shop_schema::{KnownVersion, version};
use sql_rows::StoreFault;
use sqlite::{Alter, Connection, FileStore, Files};
use sqlite_disk::Disk;
use std::alloc::Global;

/// Opens the database in the files. If the store fails, the error has the files.
pub fn connect<D: Disk + Drop>(
    alloc: Global,
    files: Files<D>,
) -> Result<Connection<FileStore<D>>, (OpenFault, Files<D>)>
    ensures opened { IfOk result (λ conn. HasCleanDisk (file_state conn) → IsOpened conn) }
    ensures found { IfOk result (λ conn. HasCleanDisk (file_state conn) → Finds files conn) }
    ensures fresh { IfOk result IsNew }
    ensures left { IfErr result (λ e. OpenFailed D.Disk files e.1) }
    ensures chain { IfErr result (λ e. e.0 ≢ OpenFault.NotAChain) }
    ensures version { IfErr result (λ e. e.0 ≢ OpenFault.OtherVersion) }
    ensures damaged { IfErr result (λ e. e.0 ≢ OpenFault.Damaged) }
    ensures already { IfErr result (λ e. e.0 ≢ OpenFault.Already) }
{
    match sql_files::connect(alloc, files) {
        Ok(conn) => Ok(conn),
        Err((fault, left)) => Err((open_fault(fault), left)),
    }
}

/// Reads the version in the first table, in a transaction that changes nothing.
pub fn version_in<S: Alter>(conn: &mut Connection<S>) -> Result<KnownVersion, StoreFault>
    requires { conn.old.in_transaction ≡ false }
    ensures ended { conn.new.in_transaction ≡ false }
    ensures read { HasCleanDisk (state S.Store conn.new) → HasVersion (state S.Store conn.old).now.schema
        → IfOk result (λ it. it ≡ version_of (map (columns_of 1) ((state S.Store conn.old).now.trees 0))) }
    ensures stays { HasCleanDisk (state S.Store conn.new)
        → StaysAsFound (state S.Store conn.old) (state S.Store conn.new) }
    ensures same { HasCleanDisk (state S.Store conn.new) → (books : Books) → Rests (state S.Store conn.old) books
        → Rests (state S.Store conn.new) books }
    ensures crash { Survives (state S.Store conn.old) (state S.Store conn.new) (λ _. ⊥) }
{
    let mut tx = conn.transaction();
    let found = version(&mut tx);
    tx.rollback();
    found
}

/// Accepts tables of this version. Otherwise returns why the tables aren't a chain's of this version.
pub fn verdict(known: Result<KnownVersion, StoreFault>) -> Result<(), OpenFault>
    ensures this { OnOk result (known ≡ Ok KnownVersion.This) }
    ensures none { IfErr result (λ e. e ≡ OpenFault.NotAChain → known ≡ Ok KnownVersion.Missing) }
    ensures other { IfErr result (λ e. e ≡ OpenFault.OtherVersion
        → (known ≡ Ok KnownVersion.First) ⊎ (known ≡ Ok KnownVersion.Other)) }
    ensures damaged { IfErr result (λ e. e ≢ OpenFault.Damaged) }
    ensures already { IfErr result (λ e. e ≢ OpenFault.Already) }
{
    match known {
        Ok(KnownVersion::This) => Ok(()),
        Ok(KnownVersion::Missing) => Err(OpenFault::NotAChain),
        Ok(KnownVersion::First) | Ok(KnownVersion::Other) => Err(OpenFault::OtherVersion),
        Err(fault) => Err(open_fault(fault)),
    }
}

/// Accepts tables of version 1. Otherwise returns why the tables can't be migrated. `is_first` says whether the schema
/// is the schema of version 1.
pub fn first_verdict(
    known: Result<KnownVersion, StoreFault>,
    is_first: Result<bool, StoreFault>,
) -> Result<(), OpenFault>
    ensures first { OnOk result ((known ≡ Ok KnownVersion.First) × (is_first ≡ Ok true)) }
    ensures none { IfErr result (λ e. e ≡ OpenFault.NotAChain
        → (known ≡ Ok KnownVersion.Missing) ⊎ ((known ≡ Ok KnownVersion.First) × (is_first ≡ Ok false))) }
    ensures other { IfErr result (λ e. e ≡ OpenFault.OtherVersion → known ≡ Ok KnownVersion.Other) }
    ensures already { IfErr result (λ e. e ≡ OpenFault.Already → known ≡ Ok KnownVersion.This) }
    ensures damaged { IfErr result (λ e. e ≢ OpenFault.Damaged) }
{
    match known {
        Ok(KnownVersion::First) => match is_first {
            Ok(true) => Ok(()),
            Ok(false) => Err(OpenFault::NotAChain),
            Err(fault) => Err(open_fault(fault)),
        },
        Ok(KnownVersion::This) => Err(OpenFault::Already),
        Ok(KnownVersion::Missing) => Err(OpenFault::NotAChain),
        Ok(KnownVersion::Other) => Err(OpenFault::OtherVersion),
        Err(fault) => Err(open_fault(fault)),
    }
}
