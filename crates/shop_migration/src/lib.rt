//! Turns the tables of version 1 into the tables of version 2.
#![tactic(auto)]

ghost use Rattle.std.specs.Prelude.{◌∷◌, [], List, OnOk};
ghost use Rattle.sqlite.specs.Held.{state};
ghost use Rattle.sqlite.specs.State.{HasCleanDisk};
ghost use Rattle.sqlite_value.specs.Order.{Row as SqlRow};
ghost use Rattle.sql_rows.specs.Calls.{StaysInside};
ghost use Rattle.sql_rows.specs.Rows.{SameBut};
ghost use Rattle.shop_model.specs.Values.{ByCode, Rules, Text};
ghost use Rattle.shop_model.specs.Books.{Books};
ghost use Rattle.shop_model.specs.Migration.{IsSoundWithoutTerms, migrated};
ghost use Rattle.shop_schema.specs.RowValues.{this_version, first_version, rule_columns};
ghost use Rattle.shop_migration.specs.Migrating.{AddsTables, IsUnderWay, Migrates, PutsRule, SetsVersion, StoodForSame, Tells};
ghost use Rattle.shop_schema.specs.Shop.{IsShop, IsKeyed, IsFirstShop, IsFirstKeyed, term_rows, HoldsVersion1, shop_schema};

use sql_rows::{StoreFault, execute};
use sqlite::{Alter, Transaction};

/// Makes the tables that version 2 adds, with no rows.
fn add_tables<S: Alter>(tx: &mut Transaction<'_, S>) -> Result<(), StoreFault>
    ensures inside { StaysInside S.Store tx.old.conn tx.new.conn result }
    ensures shop { HasCleanDisk (state S.Store tx.new.conn.now)
        → OnOk result (IsFirstShop (state S.Store tx.old.conn.now) → IsShop (state S.Store tx.new.conn.now)) }
    ensures keyed { HasCleanDisk (state S.Store tx.new.conn.now)
        → OnOk result (IsFirstShop (state S.Store tx.old.conn.now) → IsFirstKeyed (state S.Store tx.old.conn.now)
        → IsKeyed (state S.Store tx.new.conn.now)) }
    ensures added { HasCleanDisk (state S.Store tx.new.conn.now)
        → OnOk result ((books : Books) → HoldsVersion1 (state S.Store tx.old.conn.now) books
        → IsUnderWay first_version [] [] (state S.Store tx.new.conn.now) books) }
    ensures tables { HasCleanDisk (state S.Store tx.new.conn.now)
        → OnOk result (IsFirstShop (state S.Store tx.old.conn.now) → AddsTables
        (state S.Store tx.old.conn.now).now.trees (state S.Store tx.new.conn.now).now.trees) }
{
    execute(
        tx,
        "CREATE TABLE rental_terms (branch INTEGER NOT NULL, rental INTEGER NOT NULL, rate INTEGER NOT NULL, period INTEGER NOT NULL, replacement INTEGER NOT NULL, PRIMARY KEY (branch, rental), FOREIGN KEY (branch, rental) REFERENCES rental (branch, number)) STRICT",
        &[],
    )?;
    execute(
        tx,
        "CREATE TABLE chain_rule (comment_rule INTEGER NOT NULL) STRICT",
        &[],
    )
}

/// Gives each rental the current terms of its film, by one statement.
fn put_terms<S: Alter>(tx: &mut Transaction<'_, S>) -> Result<(), StoreFault>
    ensures inside { StaysInside S.Store tx.old.conn tx.new.conn result }
    ensures shop { HasCleanDisk (state S.Store tx.new.conn.now)
        → OnOk result (IsShop (state S.Store tx.old.conn.now) → IsShop (state S.Store tx.new.conn.now)) }
    ensures keyed { HasCleanDisk (state S.Store tx.new.conn.now)
        → OnOk result (IsShop (state S.Store tx.old.conn.now) → IsKeyed (state S.Store tx.old.conn.now) → IsKeyed
        (state S.Store tx.new.conn.now)) }
    ensures put { HasCleanDisk (state S.Store tx.new.conn.now)
        → OnOk result ((rules : Rules) (books : Books) → IsSoundWithoutTerms rules books → IsUnderWay first_version []
        [] (state S.Store tx.old.conn.now) books → IsUnderWay first_version (term_rows (migrated books)) []
        (state S.Store tx.new.conn.now) books) }
    ensures tables { HasCleanDisk (state S.Store tx.new.conn.now)
        → OnOk result (IsShop (state S.Store tx.old.conn.now) → SameBut shop_schema 57
        (state S.Store tx.old.conn.now).now.trees (state S.Store tx.new.conn.now).now.trees) }
{
    execute(
        tx,
        "INSERT INTO rental_terms (branch, rental, rate, period, replacement) SELECT r.branch, r.number, f.rate, f.period, f.replacement FROM rental AS r LEFT JOIN copy AS c ON c.branch = r.branch AND c.number = r.copy LEFT JOIN film AS f ON f.number = c.film",
        &[],
    )
}

/// Gives the chain its rule: the manual's code.
fn put_rule<S: Alter>(tx: &mut Transaction<'_, S>) -> Result<(), StoreFault>
    ensures inside { StaysInside S.Store tx.old.conn tx.new.conn result }
    ensures shop { HasCleanDisk (state S.Store tx.new.conn.now)
        → OnOk result (IsShop (state S.Store tx.old.conn.now) → IsShop (state S.Store tx.new.conn.now)) }
    ensures keyed { HasCleanDisk (state S.Store tx.new.conn.now)
        → OnOk result (IsShop (state S.Store tx.old.conn.now) → IsKeyed (state S.Store tx.old.conn.now) → IsKeyed
        (state S.Store tx.new.conn.now)) }
    ensures put { HasCleanDisk (state S.Store tx.new.conn.now)
        → OnOk result ((terms : List SqlRow) (books : Books) → IsUnderWay first_version terms []
        (state S.Store tx.old.conn.now) books → IsUnderWay first_version terms (rule_columns ByCode ∷ [])
        (state S.Store tx.new.conn.now) books) }
    ensures tables { HasCleanDisk (state S.Store tx.new.conn.now)
        → OnOk result (IsShop (state S.Store tx.old.conn.now) → PutsRule (state S.Store tx.old.conn.now).now.trees
        (state S.Store tx.new.conn.now).now.trees) }
{
    execute(tx, "INSERT INTO chain_rule (comment_rule) VALUES (0)", &[])
}

/// Sets the version to 2, the version of this program's tables.
fn set_version<S: Alter>(tx: &mut Transaction<'_, S>) -> Result<(), StoreFault>
    ensures inside { StaysInside S.Store tx.old.conn tx.new.conn result }
    ensures shop { HasCleanDisk (state S.Store tx.new.conn.now)
        → OnOk result (IsShop (state S.Store tx.old.conn.now) → IsShop (state S.Store tx.new.conn.now)) }
    ensures keyed { HasCleanDisk (state S.Store tx.new.conn.now)
        → OnOk result (IsShop (state S.Store tx.old.conn.now) → IsKeyed (state S.Store tx.old.conn.now) → IsKeyed
        (state S.Store tx.new.conn.now)) }
    ensures set { HasCleanDisk (state S.Store tx.new.conn.now)
        → OnOk result ((terms rule : List SqlRow) (books : Books) → IsUnderWay first_version terms rule
        (state S.Store tx.old.conn.now) books → IsUnderWay this_version terms rule (state S.Store tx.new.conn.now)
        books) }
    ensures tables { HasCleanDisk (state S.Store tx.new.conn.now)
        → OnOk result (IsShop (state S.Store tx.old.conn.now) → IsKeyed (state S.Store tx.old.conn.now) → (token : Text)
        → Tells first_version token (state S.Store tx.old.conn.now).now.trees
        → SetsVersion (state S.Store tx.old.conn.now).now.trees (state S.Store tx.new.conn.now).now.trees token) }
{
    execute(tx, "UPDATE chain SET version = 2", &[])
}

/// Turns the tables of version 1 into the tables of version 2. Each rental gets the current terms of its film, and
/// balances use the manual's code, as before. Nothing is committed. The new tables stand for what the old tables stood
/// for, and for nothing else (`stood`). So an audit of the new tables shows whether the old ones stood for sound books.
pub fn migrate_tables<S: Alter>(tx: &mut Transaction<'_, S>) -> Result<(), StoreFault>
    ensures inside { StaysInside S.Store tx.old.conn tx.new.conn result }
    ensures shop { HasCleanDisk (state S.Store tx.new.conn.now)
        → OnOk result (IsFirstShop (state S.Store tx.old.conn.now) → IsShop (state S.Store tx.new.conn.now)) }
    ensures keyed { HasCleanDisk (state S.Store tx.new.conn.now)
        → OnOk result (IsFirstShop (state S.Store tx.old.conn.now) → IsFirstKeyed (state S.Store tx.old.conn.now)
        → IsKeyed (state S.Store tx.new.conn.now)) }
    ensures migrated { HasCleanDisk (state S.Store tx.new.conn.now)
        → OnOk result (Migrates (state S.Store tx.old.conn.now) (state S.Store tx.new.conn.now)) }
    ensures stood { HasCleanDisk (state S.Store tx.new.conn.now)
        → OnOk result (StoodForSame (state S.Store tx.old.conn.now) (state S.Store tx.new.conn.now)) }
{
    add_tables(tx)?;
    put_terms(tx)?;
    put_rule(tx)?;
    set_version(tx)
}
