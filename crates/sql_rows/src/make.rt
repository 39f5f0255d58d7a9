//! How tables are made.

ghost use Rattle.std.specs.Prelude.{◌≡◌, [], ◌∷◌, IfErr, OnOk, map};
ghost use Rattle.sqlite.specs.Held.{state};
ghost use Rattle.sqlite.specs.State.{HasCleanDisk, Survives, KeepsCommit};
ghost use Rattle.sql_rows.specs.Builds.{Builds};
ghost use Rattle.sql_rows.specs.Fault.{IsToldOf, StatementGave, OneGave};

use crate::call::execute;
use crate::fault::StoreFault;
use sqlite::{Alter, Transaction};

/// Makes one table.
fn make_table<S: Alter>(tx: &mut Transaction<'_, S>, text: &str) -> Result<(), StoreFault>
    ensures same_reference { tx.new.conn.ghost_name ≡ tx.old.conn.ghost_name }
    ensures made { HasCleanDisk (state S.Store tx.new.conn.now)
        → OnOk result ((whole : _) (rest : _) → Builds whole (state S.Store tx.old.conn.now).now (text.now ∷ rest)
        → Builds whole (state S.Store tx.new.conn.now).now rest) }
    ensures kept { HasCleanDisk (state S.Store tx.new.conn.now)
        → KeepsCommit (state S.Store tx.old.conn.now) (state S.Store tx.new.conn.now) }
    ensures survives { Survives (state S.Store tx.old.conn.now) (state S.Store tx.new.conn.now) (λ _. ⊥) }
    ensures told { HasCleanDisk (state S.Store tx.new.conn.now)
        → IfErr result (IsToldOf
        (StatementGave text.now [] (state S.Store tx.old.conn.now) (state S.Store tx.new.conn.now))) }
{
    execute(tx, text, &[])
}

/// Makes the tables of the texts, each a CREATE TABLE, in their order and with no rows. Where the texts build a
/// schema from what is there, that is the schema afterwards. Nothing is committed. A fault tells by its kind the
/// error that the database gave one of the statements.
pub fn make_tables<S: Alter>(tx: &mut Transaction<'_, S>, texts: &[&str]) -> Result<(), StoreFault>
    ensures same_reference { tx.new.conn.ghost_name ≡ tx.old.conn.ghost_name }
    ensures made { HasCleanDisk (state S.Store tx.new.conn.now)
        → OnOk result ((whole : _) → Builds whole (state S.Store tx.old.conn.now).now (map (λ t. t.now) texts.now)
        → Builds whole (state S.Store tx.new.conn.now).now []) }
    ensures kept { HasCleanDisk (state S.Store tx.new.conn.now)
        → KeepsCommit (state S.Store tx.old.conn.now) (state S.Store tx.new.conn.now) }
    ensures survives { Survives (state S.Store tx.old.conn.now) (state S.Store tx.new.conn.now) (λ _. ⊥) }
    ensures told { HasCleanDisk (state S.Store tx.new.conn.now)
        → IfErr result (IsToldOf (OneGave S.Store (map (λ t. t.now) texts.now) tx.old.conn.now tx.new.conn.now)) }
{
    for text in texts {
        make_table(tx, text)?;
    }
    Ok(())
}
