//! Tokens as texts, and tokens read from a column. If the column holds no token, the fault is `Failed`.

ghost use Rattle.std.specs.Prelude.{◌≡◌, IfOk};
ghost use Rattle.sqlite.specs.declared.types.Value.TheVariants.{Text as SqlText};
ghost use Rattle.sqlite_value.specs.Order.{column};

use shop_schema::Cell;
use shop_types::Token;
use sql_rows::StoreFault;
use sqlite::Row;

/// Returns the token as a text.
pub(crate) fn token_text(token: &Token) -> &str
    ensures { result.now ≡ token.now }
{
    std::str::from_utf8(token.as_bytes().as_slice()).unwrap()
}

/// Returns the token in the column.
pub(crate) fn token_at(row: &Row, at: usize) -> Result<Token, StoreFault>
    ensures { IfOk result (λ token. column row.now at ≡ SqlText token) }
{
    Token::read_at(row, at)
}
