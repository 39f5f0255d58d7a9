//! Audits a chain's tables, in a transaction that changes nothing.

ghost use Rattle.sql_rows.specs.Causes.{FailsAtRest};
ghost use Rattle.std.specs.Prelude.{◌≡◌, false, IfOk, true, Err};
ghost use Rattle.sqlite.specs.Held.{state};
ghost use Rattle.sqlite.specs.State.{HasCleanDisk, Survives};
ghost use Rattle.shop_model.specs.Books.{Books};
ghost use Rattle.chain_requests.specs.Chains.{Rests};
ghost use Rattle.chain_requests.specs.Audits.{AuditsState, TellsSoundness};
ghost use Rattle.shop_schema.specs.Shop.{IsShop};
ghost use Rattle.chain_requests.specs.Steps.{IsUndone};

use books_audit::audit_books;
use shop_types::Audit;
use sql_rows::StoreFault;
use sqlite::{Alter, Connection};
use std::alloc::Global;

/// Audits the tables, whatever they hold. The database stays as it was. If the store is ready and the tables are a
/// chain's, the result is `Failed` only if the disk met a fault.
pub fn read_audit<S: Alter>(alloc: Global, conn: &mut Connection<S>) -> Result<Audit, StoreFault>
    requires { conn.old.in_transaction ≡ false }
    ensures ended { conn.new.in_transaction ≡ false }
    ensures told { HasCleanDisk (state S.Store conn.new) → IfOk result (AuditsState (state S.Store conn.old)) }
    ensures same { HasCleanDisk (state S.Store conn.new) → (books : Books) → Rests (state S.Store conn.old) books
        → Rests (state S.Store conn.new) books }
    ensures fails { FailsAtRest S.Store conn.old conn.new result IsShop }
    ensures crash { Survives (state S.Store conn.old) (state S.Store conn.new) (λ _. ⊥) }
{
    let mut tx = conn.transaction();
    let audit = audit_books(alloc, &mut tx);
    tx.rollback();
    audit
}

/// Audits the tables. If the chain has failed, returns `Failed` and doesn't use the connection.
pub fn audit_unless_failed<S: Alter>(
    alloc: Global,
    is_failed: bool,
    conn: &mut Connection<S>,
) -> Result<Audit, StoreFault>
    requires { conn.old.in_transaction ≡ false }
    ensures failed { is_failed ≡ true → (conn.new ≡ conn.old) × (result ≡ Err StoreFault.Failed) }
    ensures ended { conn.new.in_transaction ≡ false }
    ensures told { HasCleanDisk (state S.Store conn.new) → IfOk result (AuditsState (state S.Store conn.old)) }
    ensures same { HasCleanDisk (state S.Store conn.new) → IsUndone (state S.Store conn.old) (state S.Store conn.new) }
    ensures fails { is_failed ≡ false → FailsAtRest S.Store conn.old conn.new result IsShop }
    ensures crash { Survives (state S.Store conn.old) (state S.Store conn.new) (λ _. ⊥) }
{
    if is_failed {
        return Err(StoreFault::Failed);
    }
    read_audit(alloc, conn)
}

/// Returns whether a chain's tables stand for sound books, as an audit of the tables says. Writes nothing.
pub fn tables_are_sound<S: Alter>(
    alloc: Global,
    conn: &mut Connection<S>,
) -> Result<bool, StoreFault>
    requires { conn.old.in_transaction ≡ false }
    ensures ended { conn.new.in_transaction ≡ false }
    ensures told { HasCleanDisk (state S.Store conn.new)
        → IfOk result (λ it. TellsSoundness it (state S.Store conn.old)) }
    ensures same { HasCleanDisk (state S.Store conn.new) → (books : Books) → Rests (state S.Store conn.old) books
        → Rests (state S.Store conn.new) books }
    ensures fails { FailsAtRest S.Store conn.old conn.new result IsShop }
    ensures crash { Survives (state S.Store conn.old) (state S.Store conn.new) (λ _. ⊥) }
{
    let audit = read_audit(alloc, conn)?;
    Ok(audit.sound)
}
