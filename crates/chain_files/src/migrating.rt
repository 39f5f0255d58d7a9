//! Turns tables of version 1 into tables of this version, all in one transaction.

ghost use Rattle.std.specs.Prelude.{◌≡◌, ◌≢◌, false, OnOk, IfErr};
ghost use Rattle.sqlite.specs.Held.{state};
ghost use Rattle.sqlite.specs.State.{HasCleanDisk, Survives};
ghost use Rattle.sql_rows.specs.Calls.{DoesInside};
ghost use Rattle.chain_files.specs.Faults.{is_store_fault};
ghost use Rattle.chain_files.specs.Migrations.{MigratesInside, IsMigration, IsUnsoundVersion1, LeavesMigrated};
ghost use Rattle.chain_requests.specs.Chains.{StaysAsFound};
ghost use Rattle.chain_files.specs.Files.{IsFirst, IsNeither, Knows};

use crate::faults::{OpenFault, open_fault};
use crate::files::first_verdict;
use crate::versions::chain_version;
use books_audit::audit_books;
use shop_migration::migrate_tables;
use shop_schema::{KnownVersion, is_first_shop};
use sql_rows::{StoreFault, fault_of};
use sqlite::{Alter, Connection, Transaction};
use std::alloc::Global;

/// Turns the tables of version 1 into tables of this version, inside a transaction. Returns whether an audit finds the
/// new tables sound.
fn migrate_inside<S: Alter>(alloc: Global, tx: &mut Transaction<'_, S>) -> Result<bool, StoreFault>
    ensures { DoesInside S.Store tx.old.conn tx.new.conn result
        MigratesInside }
{
    migrate_tables(tx)?;
    let audit = audit_books(alloc, tx)?;
    Ok(audit.sound)
}

/// Turns the tables of version 1 into tables of this version. Each rental gets the current terms of its film. Either
/// all is done or nothing. If an audit finds that the tables stand for no sound books, returns `Damaged` and changes
/// nothing.
pub fn migrate<S: Alter>(alloc: Global, conn: &mut Connection<S>) -> Result<(), OpenFault>
    requires { conn.old.in_transaction ≡ false }
    ensures ended { conn.new.in_transaction ≡ false }
    ensures migrated { HasCleanDisk (state S.Store conn.new)
        → OnOk result (IsMigration (state S.Store conn.old) (state S.Store conn.new)) }
    ensures damaged { HasCleanDisk (state S.Store conn.new)
        → IfErr result (λ e. e ≡ OpenFault.Damaged → IsUnsoundVersion1 (state S.Store conn.old)) }
    ensures undone { IfErr result (λ e. is_store_fault e ≡ false
        → Survives (state S.Store conn.old) (state S.Store conn.new) (λ _. ⊥)) }
    ensures crash { Survives (state S.Store conn.old) (state S.Store conn.new)
        (LeavesMigrated (state S.Store conn.old)) }
    ensures chain { IfErr result (λ e. e ≢ OpenFault.NotAChain) }
    ensures version { IfErr result (λ e. e ≢ OpenFault.OtherVersion) }
    ensures already { IfErr result (λ e. e ≢ OpenFault.Already) }
{
    let mut tx = conn.transaction();
    match migrate_inside(alloc, &mut tx) {
        Ok(true) => match tx.commit() {
            Ok(()) => Ok(()),
            Err(error) => Err(open_fault(fault_of(error))),
        },
        Ok(false) => {
            tx.rollback();
            Err(OpenFault::Damaged)
        }
        Err(fault) => {
            tx.rollback();
            Err(open_fault(fault))
        }
    }
}

/// Accepts the tables of a chain of version 1. Otherwise returns why they can't be migrated. Writes nothing.
fn examine_first<S: Alter>(alloc: Global, conn: &mut Connection<S>) -> Result<(), OpenFault>
    requires { conn.old.in_transaction ≡ false }
    ensures ended { conn.new.in_transaction ≡ false }
    ensures first { HasCleanDisk (state S.Store conn.new)
        → OnOk result (IsFirst (state S.Store conn.old)) }
    ensures none { HasCleanDisk (state S.Store conn.new)
        → IfErr result (λ e. e ≡ OpenFault.NotAChain → IsNeither (state S.Store conn.old)) }
    ensures other { HasCleanDisk (state S.Store conn.new)
        → IfErr result (λ e. e ≡ OpenFault.OtherVersion → Knows KnownVersion.Other (state S.Store conn.old)) }
    ensures already { HasCleanDisk (state S.Store conn.new)
        → IfErr result (λ e. e ≡ OpenFault.Already → Knows KnownVersion.This (state S.Store conn.old)) }
    ensures damaged { IfErr result (λ e. e ≢ OpenFault.Damaged) }
    ensures stays { HasCleanDisk (state S.Store conn.new)
        → StaysAsFound (state S.Store conn.old) (state S.Store conn.new) }
    ensures crash { Survives (state S.Store conn.old) (state S.Store conn.new) (λ _. ⊥) }
{
    let is_first = is_first_shop(alloc, conn.schema());
    let known = chain_version(alloc, conn);
    first_verdict(known, is_first)
}

/// Turns the tables of a chain of version 1 into tables of this version. Each rental gets the current terms of its
/// film. Returns `Already` if the tables are of this version, `NotAChain` if they are no chain's, and `OtherVersion`
/// if they are of neither version. Returns `Damaged` if they stand for no sound books. After these faults nothing is
/// written. After a fault of the store, all may have been written, or nothing.
pub fn migrate_first<S: Alter>(alloc: Global, conn: &mut Connection<S>) -> Result<(), OpenFault>
    requires { conn.old.in_transaction ≡ false }
    ensures ended { conn.new.in_transaction ≡ false }
    ensures first { HasCleanDisk (state S.Store conn.new)
        → OnOk result (IsFirst (state S.Store conn.old)) }
    ensures migrated { HasCleanDisk (state S.Store conn.new)
        → (state S.Store conn.old).now ≡ (state S.Store conn.old).committed
        → OnOk result (IsMigration (state S.Store conn.old) (state S.Store conn.new)) }
    ensures none { HasCleanDisk (state S.Store conn.new)
        → IfErr result (λ e. e ≡ OpenFault.NotAChain → IsNeither (state S.Store conn.old)) }
    ensures other { HasCleanDisk (state S.Store conn.new)
        → IfErr result (λ e. e ≡ OpenFault.OtherVersion → Knows KnownVersion.Other (state S.Store conn.old)) }
    ensures already { HasCleanDisk (state S.Store conn.new)
        → IfErr result (λ e. e ≡ OpenFault.Already → Knows KnownVersion.This (state S.Store conn.old)) }
    ensures damaged { HasCleanDisk (state S.Store conn.new)
        → (state S.Store conn.old).now ≡ (state S.Store conn.old).committed
        → IfErr result (λ e. e ≡ OpenFault.Damaged → IsFirst (state S.Store conn.old) × IsUnsoundVersion1
        (state S.Store conn.old)) }
    ensures undone { IfErr result (λ e. is_store_fault e ≡ false
        → Survives (state S.Store conn.old) (state S.Store conn.new) (λ _. ⊥)) }
    ensures crash { Survives (state S.Store conn.old) (state S.Store conn.new) (λ db. IsFirst (state S.Store conn.old)
        × ((state S.Store conn.old).now ≡ (state S.Store conn.old).committed → LeavesMigrated (state S.Store conn.old)
        db)) }
{
    match examine_first(alloc, conn) {
        Ok(()) => migrate(alloc, conn),
        Err(fault) => Err(fault),
    }
}
