//! Whether the store is open.

ghost use Rattle.std.specs.Prelude.{◌≡◌, false, IsTrue};
ghost use Rattle.sqlite.specs.Held.{state};
ghost use Rattle.sqlite.specs.State.{HasCleanDisk, Survives};

use sql_rows::query;
use sqlite::{Alter, Connection};

/// Returns whether the store was still open at the call.
pub fn is_open<S: Alter>(conn: &mut Connection<S>) -> bool
    requires { conn.old.in_transaction ≡ false }
    ensures ended { conn.new.in_transaction ≡ false }
    ensures was { HasCleanDisk (state S.Store conn.new) → IsTrue result → IsTrue (state S.Store conn.old).is_open }
    ensures same { HasCleanDisk (state S.Store conn.new) → IsTrue (state S.Store conn.new).is_open
        → ((state S.Store conn.new).now ≡ (state S.Store conn.old).committed)
        × ((state S.Store conn.new).committed ≡ (state S.Store conn.old).committed) }
    ensures crash { Survives (state S.Store conn.old) (state S.Store conn.new) (λ _. ⊥) }
{
    let mut tx = conn.transaction();
    let answers = query(&mut tx, "SELECT 1", &[]).is_ok();
    tx.rollback();
    answers
}
