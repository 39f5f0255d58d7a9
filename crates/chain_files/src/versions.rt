//! Finds out the version of a chain's tables, if the tables are a chain's.

ghost use Rattle.std.specs.Prelude.{◌≡◌, ◌≢◌, ◌⊎◌, false, IfOk, IfErr, OnOk};
ghost use Rattle.sqlite.specs.Held.{state};
ghost use Rattle.sqlite.specs.State.{HasCleanDisk, Survives};
ghost use Rattle.shop_model.specs.Books.{Books};
ghost use Rattle.chain_requests.specs.Chains.{Rests, StaysAsFound, StandsSoundly};
ghost use Rattle.chain_files.specs.Files.{Knows};

use crate::faults::{OpenFault, open_fault};
use crate::files::{verdict, version_in};
use chain_requests::tables_are_sound;
use shop_schema::{KnownVersion, has_version, is_shop};
use sql_rows::StoreFault;
use sqlite::{Alter, Connection};
use std::alloc::Global;

/// Finds out whether the tables are a chain's, and their version.
pub fn chain_version<S: Alter>(
    alloc: Global,
    conn: &mut Connection<S>,
) -> Result<KnownVersion, StoreFault>
    requires { conn.old.in_transaction ≡ false }
    ensures ended { conn.new.in_transaction ≡ false }
    ensures told { HasCleanDisk (state S.Store conn.new) → IfOk result (λ it. Knows it (state S.Store conn.old)) }
    ensures stays { HasCleanDisk (state S.Store conn.new)
        → StaysAsFound (state S.Store conn.old) (state S.Store conn.new) }
    ensures same { HasCleanDisk (state S.Store conn.new) → (books : Books) → Rests (state S.Store conn.old) books
        → Rests (state S.Store conn.new) books }
    ensures crash { Survives (state S.Store conn.old) (state S.Store conn.new) (λ _. ⊥) }
{
    if !has_version(alloc, conn.schema())? {
        return Ok(KnownVersion::Missing);
    }
    let is_this = is_shop(alloc, conn.schema())?;
    let found = version_in(conn)?;
    if found == KnownVersion::This && !is_this {
        return Ok(KnownVersion::Missing);
    }
    Ok(found)
}

/// Accepts tables of this version that stand for sound books. Otherwise returns why there is no chain. Writes nothing.
pub fn examine<S: Alter>(alloc: Global, conn: &mut Connection<S>) -> Result<(), OpenFault>
    requires { conn.old.in_transaction ≡ false }
    ensures ended { conn.new.in_transaction ≡ false }
    ensures this { HasCleanDisk (state S.Store conn.new)
        → OnOk result (Knows KnownVersion.This (state S.Store conn.old)) }
    ensures sound { HasCleanDisk (state S.Store conn.new)
        → (state S.Store conn.old).now ≡ (state S.Store conn.old).committed
        → OnOk result (StandsSoundly (state S.Store conn.old).now.trees) }
    ensures none { HasCleanDisk (state S.Store conn.new)
        → IfErr result (λ e. e ≡ OpenFault.NotAChain → Knows KnownVersion.Missing (state S.Store conn.old)) }
    ensures other { HasCleanDisk (state S.Store conn.new) → IfErr result (λ e. e ≡ OpenFault.OtherVersion
        → Knows KnownVersion.First (state S.Store conn.old) ⊎ Knows KnownVersion.Other (state S.Store conn.old)) }
    ensures damaged { HasCleanDisk (state S.Store conn.new)
        → (state S.Store conn.old).now ≡ (state S.Store conn.old).committed
        → IfErr result (λ e. e ≡ OpenFault.Damaged → Knows KnownVersion.This (state S.Store conn.old)
        × (¬ StandsSoundly (state S.Store conn.old).now.trees)) }
    ensures already { IfErr result (λ e. e ≢ OpenFault.Already) }
    ensures same { HasCleanDisk (state S.Store conn.new) → (books : Books) → Rests (state S.Store conn.old) books
        → Rests (state S.Store conn.new) books }
    ensures crash { Survives (state S.Store conn.old) (state S.Store conn.new) (λ _. ⊥) }
{
    let known = chain_version(alloc, conn);
    if let Err(fault) = verdict(known) {
        return Err(fault);
    }
    match tables_are_sound(alloc, conn) {
        Ok(true) => Ok(()),
        Ok(false) => Err(OpenFault::Damaged),
        Err(fault) => Err(open_fault(fault)),
    }
}
