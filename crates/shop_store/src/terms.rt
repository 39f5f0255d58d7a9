ghost use Rattle.std.specs.Prelude.{⊤, ◌≡◌, ◌++◌, ◌∷◌, []};
ghost use Rattle.sqlite.specs.Values.{bound};
ghost use Rattle.sql_rows.specs.Calls.{DoesInside};
ghost use Rattle.shop_ledger.specs.Calls.{Stores};
ghost use Rattle.shop_schema.specs.RowValues.{terms_columns};
ghost use Rattle.shop_store.specs.Seen.{seen_terms_row};

use shop_types::{BranchNo, RentalNo, Terms};
use sql_rows::{StoreFault, execute};
use sqlite::types::{ToSql, ValueRef};
use sqlite::{Alter, Transaction};

/// The terms of a rental of a branch, with its number there.
#[derive(Clone, Copy, Drop)]
pub struct TermsRow {
    pub branch: BranchNo,
    pub rental: RentalNo,
    pub terms: Terms,
}

/// Returns the columns of the terms in order, as parameters.
fn values(row: &TermsRow) -> [ValueRef<'_>; 5]
    ensures { bound result ≡ terms_columns (seen_terms_row row.now) }
{
    [
        row.branch.get().to_sql(),
        row.rental.get().to_sql(),
        u32::from(row.terms.rate.get()).to_sql(),
        u32::from(row.terms.period.get()).to_sql(),
        row.terms.replacement.get().to_sql(),
    ]
}

const INSERT_TERMS: &str =
    "INSERT INTO rental_terms (branch, rental, rate, period, replacement) VALUES (?1, ?2, ?3, ?4, ?5)";

/// Adds the terms of a rental. After a fault the transaction may be rolled back.
pub fn put_terms<S: Alter>(tx: &mut Transaction<'_, S>, row: &TermsRow) -> Result<(), StoreFault>
    ensures { DoesInside S.Store tx.old.conn tx.new.conn result
        (λ _. Stores (λ _. ⊤) (λ books. record books { terms = books.terms ++ seen_terms_row row.now ∷ [] })) }
{
    execute(tx, INSERT_TERMS, &values(row))
}
