//! The chain's own row and rule: head office's token, and the rule for balances.

ghost use Rattle.std.specs.Prelude.{⊤, ◌≡◌, IfErr, IfOk};
ghost use Rattle.std.specs.Str.{bytes_eq};
ghost use Rattle.sqlite_value.specs.Order.{column};
ghost use Rattle.sql_rows.specs.Calls.{DoesInside};
ghost use Rattle.sql_rows.specs.Causes.{FailsByFaults};
ghost use Rattle.sql_rows.specs.Rows.{number_value};
ghost use Rattle.sql_rows.specs.declared.fault.StoreFault.TheVariants.{Failed};
ghost use Rattle.shop_types.specs.Seen.{seen_rule};
ghost use Rattle.shop_ledger.specs.Calls.{Finds, Stores};
ghost use Rattle.shop_schema.specs.Asked.{HoldsBooks};
ghost use Rattle.shop_schema.specs.RowValues.{rule_columns, rule_value};
ghost use Rattle.shop_store.specs.Asked.{IsNoneOf};

use crate::columns::{token_at, token_text};
use crate::rows::shows_row;
use shop_schema::query_first;
use shop_types::{Rule, Token};
use sql_rows::{StoreFault, execute, number_at};
use sqlite::types::ToSql;
use sqlite::{Alter, Row, Transaction};

const SELECT_OFFICE: &str = "SELECT version FROM chain WHERE office_token = ?1";

/// Returns whether the token is head office's.
pub fn is_office<S: Alter>(tx: &mut Transaction<'_, S>, token: &Token) -> Result<bool, StoreFault>
    ensures does { DoesInside S.Store tx.old.conn tx.new.conn result
        (λ is. Finds (λ books. is ≡ bytes_eq token.now books.catalogue.office_token)) }
    ensures fails { FailsByFaults S.Store tx.old.conn tx.new.conn result HoldsBooks }
{
    shows_row(tx, SELECT_OFFICE, &[token_text(token).to_sql()])
}

const SELECT_OFFICE_TOKEN: &str = "SELECT office_token FROM chain";

/// Returns head office's token.
pub fn office_token<S: Alter>(tx: &mut Transaction<'_, S>) -> Result<Token, StoreFault>
    ensures { DoesInside S.Store tx.old.conn tx.new.conn result
        (λ token. Finds (λ books. token ≡ books.catalogue.office_token)) }
{
    match query_first(tx, SELECT_OFFICE_TOKEN, &[], |row| token_at(row, 0))? {
        None => Err(StoreFault::Failed),
        Some(token) => Ok(token),
    }
}

/// Reads the rule in the row.
fn rule_in(row: &Row) -> Result<Rule, StoreFault>
    ensures ok { IfOk result (λ rule. column row.now 0 ≡ rule_value (seen_rule rule)) }
    ensures failed { IfErr result (λ e. e ≡ Failed → IsNoneOf (λ _. ⊤) rule_columns row.now) }
{
    let number = match number_at(row, 0) {
        Ok(number) => number,
        Err(fault) => return Err(fault),
    };
    match number {
        0 => Ok(Rule::ByCode),
        1 => Ok(Rule::ByComment),
        _ => Err(StoreFault::Failed),
    }
}

/// Returns the rule's number in the table.
fn rule_code(rule: Rule) -> u32
    ensures { number_value result ≡ rule_value (seen_rule rule) }
{
    match rule {
        Rule::ByCode => 0,
        Rule::ByComment => 1,
    }
}

const SELECT_RULE: &str = "SELECT comment_rule FROM chain_rule";

/// Returns the rule for balances.
pub fn rule_at<S: Alter>(tx: &mut Transaction<'_, S>) -> Result<Rule, StoreFault>
    ensures does { DoesInside S.Store tx.old.conn tx.new.conn result
        (λ rule. Finds (λ books. seen_rule rule ≡ books.catalogue.rule)) }
    ensures fails { FailsByFaults S.Store tx.old.conn tx.new.conn result HoldsBooks }
{
    match query_first(tx, SELECT_RULE, &[], rule_in) {
        Ok(Some(rule)) => Ok(rule),
        Ok(None) => Err(StoreFault::Failed),
        Err(fault) => Err(fault),
    }
}

const UPDATE_RULE: &str = "UPDATE chain_rule SET comment_rule = ?1";

/// Sets the rule for balances. After a fault the transaction may be rolled back.
pub fn set_rule<S: Alter>(tx: &mut Transaction<'_, S>, rule: Rule) -> Result<(), StoreFault>
    ensures { DoesInside S.Store tx.old.conn tx.new.conn result
        (λ _. Stores (λ _. ⊤)
        (λ books. record books { catalogue = record books.catalogue { rule = seen_rule rule } })) }
{
    execute(tx, UPDATE_RULE, &[rule_code(rule).to_sql()])
}
