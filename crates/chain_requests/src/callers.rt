//! Finds the caller who has a token, in a transaction that changes nothing.

ghost use Rattle.std.specs.Prelude.{◌≡◌, false, IfOk, Some, true, Err};
ghost use Rattle.sqlite.specs.Held.{state};
ghost use Rattle.sqlite.specs.State.{HasCleanDisk, Survives};
ghost use Rattle.sql_rows.specs.Calls.{DoesInside};
ghost use Rattle.sql_rows.specs.Causes.{FailsAtRest, FailsByFaults};
ghost use Rattle.shop_model.specs.Books.{caller_of};
ghost use Rattle.shop_types.specs.Seen.{seen_caller};
ghost use Rattle.shop_schema.specs.Asked.{HoldsBooks};
ghost use Rattle.shop_ledger.specs.Calls.{Finds};
ghost use Rattle.chain_requests.specs.Steps.{IsUndone, HasCaller};
ghost use Rattle.chain_requests.specs.Wells.{RestsOnBooks};

use shop_store::branches::branch_with;
use shop_store::chain::is_office;
use shop_types::{Caller, Token};
use sql_rows::StoreFault;
use sqlite::{Alter, Connection, Transaction};

/// Finds the caller who has the token. If the store is ready and holds books, the result
/// is `Failed` only if the disk met a fault.
pub fn find_caller<S: Alter>(conn: &mut Connection<S>, token: &Token) -> Result<Caller, StoreFault>
    requires { conn.old.in_transaction ≡ false }
    ensures ended { conn.new.in_transaction ≡ false }
    ensures found { HasCleanDisk (state S.Store conn.new)
        → IfOk result (λ caller. HasCaller token.now (seen_caller caller) (state S.Store conn.old)) }
    ensures same { HasCleanDisk (state S.Store conn.new) → IsUndone (state S.Store conn.old) (state S.Store conn.new) }
    ensures fails { FailsAtRest S.Store conn.old conn.new result RestsOnBooks }
    ensures crash { Survives (state S.Store conn.old) (state S.Store conn.new) (λ _. ⊥) }
{
    let mut tx = conn.transaction();
    let caller = caller_in(&mut tx, token);
    tx.rollback();
    caller
}

fn caller_in<S: Alter>(tx: &mut Transaction<'_, S>, token: &Token) -> Result<Caller, StoreFault>
    ensures does { DoesInside S.Store tx.old.conn tx.new.conn result
        (λ caller. Finds (λ books. seen_caller caller ≡ caller_of (Some token.now) books.catalogue)) }
    ensures fails { FailsByFaults S.Store tx.old.conn tx.new.conn result HoldsBooks }
{
    if is_office(tx, token)? {
        return Ok(Caller::Office);
    }
    match branch_with(tx, token)? {
        Some(branch) => Ok(Caller::Branch(branch)),
        None => Ok(Caller::Nobody),
    }
}

/// Finds the caller who has the token. If the chain has failed, returns `Failed` and doesn't use the connection.
pub fn caller_unless_failed<S: Alter>(
    is_failed: bool,
    conn: &mut Connection<S>,
    token: &Token,
) -> Result<Caller, StoreFault>
    requires { conn.old.in_transaction ≡ false }
    ensures failed { is_failed ≡ true → (conn.new ≡ conn.old) × (result ≡ Err StoreFault.Failed) }
    ensures ended { conn.new.in_transaction ≡ false }
    ensures found { HasCleanDisk (state S.Store conn.new)
        → IfOk result (λ caller. HasCaller token.now (seen_caller caller) (state S.Store conn.old)) }
    ensures same { HasCleanDisk (state S.Store conn.new) → IsUndone (state S.Store conn.old) (state S.Store conn.new) }
    ensures fails { is_failed ≡ false → FailsAtRest S.Store conn.old conn.new result RestsOnBooks }
    ensures crash { Survives (state S.Store conn.old) (state S.Store conn.new) (λ _. ⊥) }
{
    if is_failed {
        return Err(StoreFault::Failed);
    }
    find_caller(conn, token)
}
