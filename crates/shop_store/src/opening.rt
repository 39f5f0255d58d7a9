//! The rows with which a chain begins.

ghost use Rattle.std.specs.Prelude.{◌≡◌, ◌<◌, map};
ghost use Rattle.sql_rows.specs.Calls.{DoesInside, DoesWithin};
ghost use Rattle.shop_model.specs.Opening.{token_of, opening_books};
ghost use Rattle.shop_schema.specs.Counts.{no_counts};
ghost use Rattle.shop_schema.specs.Shop.{Holds, HoldsWith, first_books};
ghost use Rattle.shop_store.specs.New.{IsRuled, Fills};
ghost use Rattle.shop_store.specs.Runs.{Runs};

use shop_ledger::{put_count, put_counts};
use shop_types::Token;
use sql_rows::{StoreFault, execute};
use sqlite::types::ValueRef;
use sqlite::{Alter, Transaction};

/// The shared rows of the chain that is shown and tested: each statement adds one.
const ROWS: [&str; 21] = [
    "INSERT INTO country (number, name) VALUES (1, 'Canada')",
    "INSERT INTO country (number, name) VALUES (2, 'Australia')",
    "INSERT INTO language (number, name) VALUES (1, 'English')",
    "INSERT INTO category (number, name) VALUES (1, 'Action')",
    "INSERT INTO category (number, name) VALUES (2, 'Comedy')",
    "INSERT INTO actor (number, first, last) VALUES (1, 'ANN', 'HILL')",
    "INSERT INTO actor (number, first, last) VALUES (2, 'BO', 'KERR')",
    "INSERT INTO film (number, title, description, language, category, period, rate, replacement, length, rating, features, withdrawn) VALUES (1, 'RIVER DAWN', '', 1, 1, 3, 499, 1999, 86, 'PG', '', 0)",
    "INSERT INTO film (number, title, description, language, category, period, rate, replacement, length, rating, features, withdrawn) VALUES (2, 'NORTH LIGHT', '', 1, 2, 5, 299, 999, NULL, 'G', '', 0)",
    "INSERT INTO film_actor (film, actor) VALUES (1, 1)",
    "INSERT INTO film_actor (film, actor) VALUES (1, 2)",
    "INSERT INTO film_actor (film, actor) VALUES (2, 2)",
    "INSERT INTO city (number, name, country) VALUES (1, 'Lethbridge', 1)",
    "INSERT INTO city (number, name, country) VALUES (2, 'Woodridge', 2)",
    "INSERT INTO city (number, name, country) VALUES (3, 'Brisbane', 2)",
    "INSERT INTO branch (number, token, address, postal, phone, city, manager, last_moment) VALUES (1, '11111111111111111111111111111111', '10 High', '', '', 1, 1, NULL)",
    "INSERT INTO branch (number, token, address, postal, phone, city, manager, last_moment) VALUES (2, '22222222222222222222222222222222', '20 High', '', '', 2, 2, NULL)",
    "INSERT INTO branch (number, token, address, postal, phone, city, manager, last_moment) VALUES (3, '33333333333333333333333333333333', '30 High', '', '', 3, NULL, NULL)",
    "INSERT INTO staff (number, branch, first, last, address, postal, phone, city, gone) VALUES (1, 1, 'IDA', 'LUND', '2 Side', '', '', 1, 0)",
    "INSERT INTO staff (number, branch, first, last, address, postal, phone, city, gone) VALUES (2, 2, 'JON', 'VEGA', '2 Side', '', '', 2, 0)",
    "INSERT INTO staff (number, branch, first, last, address, postal, phone, city, gone) VALUES (3, 3, 'KIM', 'ROSS', '2 Side', '', '', 3, 0)",
];

const INSERT_RULE: &str = "INSERT INTO chain_rule (comment_rule) VALUES (0)";

/// Gives new tables the row of their rule: the manual's code. After a fault the transaction may be rolled back.
fn put_rule<S: Alter>(tx: &mut Transaction<'_, S>) -> Result<(), StoreFault>
    ensures { DoesInside S.Store tx.old.conn tx.new.conn result
        (λ _. Fills IsRuled) }
{
    execute(tx, INSERT_RULE, &[])
}

const INSERT_CHAIN: &str = "INSERT INTO chain (version, office_token) VALUES (2, ?1)";

/// Adds the row of the table `chain`, and no count, to new tables that have their rule. After a fault the transaction
/// may be rolled back.
fn put_chain<S: Alter>(tx: &mut Transaction<'_, S>, token: &Token) -> Result<(), StoreFault>
    ensures { DoesInside S.Store tx.old.conn tx.new.conn result
        (λ _ old new. IsRuled old → HoldsWith no_counts new (first_books token.now)) }
{
    execute(tx, INSERT_CHAIN, &[ValueRef::Text(token.as_bytes())])
}

/// Gives new tables their rule, head office's token and its count. Then they are the tables of a chain with no shared
/// row. After a fault the transaction may be rolled back.
pub fn put_token<S: Alter>(tx: &mut Transaction<'_, S>, token: &Token) -> Result<(), StoreFault>
    ensures { DoesInside S.Store tx.old.conn tx.new.conn result
        (λ _. Fills (λ s. Holds s (first_books token.now))) }
{
    put_rule(tx)?;
    put_chain(tx, token)?;
    put_count(tx, 0, 4, 0)
}

/// Returns the token that has the digit 32 times.
fn token_with(digit: u8) -> Token
    requires { digit < 10 }
    ensures { result ≡ token_of digit }
{
    Token::read(&[b'0' + digit; 32]).unwrap()
}

/// Runs the statements, which have no parameters, one after another. After a fault the transaction may be rolled back.
fn run_all<S: Alter>(tx: &mut Transaction<'_, S>, texts: &[&str]) -> Result<(), StoreFault>
    ensures { DoesWithin S.Store tx.old.conn tx.new.conn result
        (λ _ _ _. Runs S.Store (map (λ t. t.now) texts.now) tx.old.conn.now tx.new.conn.now) }
{
    for text in texts {
        execute(tx, text, &[])?;
    }
    Ok(())
}

/// Gives new tables the rows with which the chain that is shown and tested begins. After a fault the transaction may
/// be rolled back.
pub fn put_opening<S: Alter>(tx: &mut Transaction<'_, S>) -> Result<(), StoreFault>
    ensures { DoesInside S.Store tx.old.conn tx.new.conn result
        (λ _. Fills (λ s. Holds s opening_books)) }
{
    put_token(tx, &token_with(0))?;
    run_all(tx, &ROWS)?;
    put_counts(tx, 1)?;
    put_counts(tx, 2)?;
    put_counts(tx, 3)
}
