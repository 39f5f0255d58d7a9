//! Whether there is a shared row of a number, a name or a token.

ghost use Rattle.std.specs.Prelude.{◌≡◌, ◌==◌, ◌&&◌, not, List, IfErr, length};
ghost use Rattle.std.specs.List.{list_any};
ghost use Rattle.std.specs.Str.{bytes_eq};
ghost use Rattle.sqlite.specs.Held.{state};
ghost use Rattle.sqlite.specs.State.{HasCleanDisk, Shown};
ghost use Rattle.sqlite.specs.Values.{bound};
ghost use Rattle.sqlite_value.specs.Order.{Row as SqlRow};
ghost use Rattle.sql_rows.specs.Calls.{DoesInside};
ghost use Rattle.sql_rows.specs.Fault.{IsToldOf, QueryGave};
ghost use Rattle.shop_model.specs.Rows.{lacks};
ghost use Rattle.shop_ledger.specs.Calls.{Finds};

use crate::branches::SELECT_WITH_TOKEN;
use crate::columns::token_text;
use shop_types::{ActorNo, CategoryNo, CityNo, CountryNo, FilmNo, LanguageNo, Token};
use sql_rows::{StoreFault, query};
use sqlite::types::{ToSql, ValueRef};
use sqlite::{Alter, Transaction};

/// Returns whether the query shows a row.
pub(crate) fn shows_row<S: Alter>(
    tx: &mut Transaction<'_, S>,
    text: &str,
    params: &[ValueRef<'_>],
) -> Result<bool, StoreFault>
    ensures does { DoesInside S.Store tx.old.conn tx.new.conn result
        (λ shows old new. (rows : List SqlRow) × Shown text.now (bound params.now) old new rows
        × (shows ≡ not (length rows == 0))) }
    ensures told { HasCleanDisk (state S.Store tx.new.conn.now)
        → IfErr result (IsToldOf
        (QueryGave text.now (bound params.now) (state S.Store tx.old.conn.now) (state S.Store tx.new.conn.now))) }
{
    match query(tx, text, params) {
        Ok(rows) => Ok(!rows.is_empty()),
        Err(fault) => Err(fault),
    }
}

const SELECT_COUNTRY: &str = "SELECT number FROM country WHERE number = ?1";

/// Returns whether there is a country of the number.
pub fn has_country<S: Alter>(
    tx: &mut Transaction<'_, S>,
    country: CountryNo,
) -> Result<bool, StoreFault>
    ensures { DoesInside S.Store tx.old.conn tx.new.conn result
        (λ has. Finds (λ books. has ≡ not (lacks books.catalogue.countries country))) }
{
    shows_row(tx, SELECT_COUNTRY, &[country.get().to_sql()])
}

const SELECT_LANGUAGE: &str = "SELECT number FROM language WHERE number = ?1";

/// Returns whether there is a language of the number.
pub fn has_language<S: Alter>(
    tx: &mut Transaction<'_, S>,
    language: LanguageNo,
) -> Result<bool, StoreFault>
    ensures { DoesInside S.Store tx.old.conn tx.new.conn result
        (λ has. Finds (λ books. has ≡ not (lacks books.catalogue.languages language))) }
{
    shows_row(tx, SELECT_LANGUAGE, &[language.get().to_sql()])
}

const SELECT_CATEGORY: &str = "SELECT number FROM category WHERE number = ?1";

/// Returns whether there is a category of the number.
pub fn has_category<S: Alter>(
    tx: &mut Transaction<'_, S>,
    category: CategoryNo,
) -> Result<bool, StoreFault>
    ensures { DoesInside S.Store tx.old.conn tx.new.conn result
        (λ has. Finds (λ books. has ≡ not (lacks books.catalogue.categories category))) }
{
    shows_row(tx, SELECT_CATEGORY, &[category.get().to_sql()])
}

const SELECT_CITY: &str = "SELECT number FROM city WHERE number = ?1";

/// Returns whether there is a city of the number.
pub fn has_city<S: Alter>(tx: &mut Transaction<'_, S>, city: CityNo) -> Result<bool, StoreFault>
    ensures { DoesInside S.Store tx.old.conn tx.new.conn result
        (λ has. Finds (λ books. has ≡ not (lacks books.catalogue.cities city))) }
{
    shows_row(tx, SELECT_CITY, &[city.get().to_sql()])
}

const SELECT_ACTOR: &str = "SELECT number FROM actor WHERE number = ?1";

/// Returns whether there is an actor of the number.
pub fn has_actor<S: Alter>(tx: &mut Transaction<'_, S>, actor: ActorNo) -> Result<bool, StoreFault>
    ensures { DoesInside S.Store tx.old.conn tx.new.conn result
        (λ has. Finds (λ books. has ≡ not (lacks books.catalogue.actors actor))) }
{
    shows_row(tx, SELECT_ACTOR, &[actor.get().to_sql()])
}

const SELECT_COUNTRY_NAMED: &str = "SELECT number FROM country WHERE name = ?1";

/// Returns whether a country has the name, by its bytes.
pub fn is_country<S: Alter>(tx: &mut Transaction<'_, S>, name: &str) -> Result<bool, StoreFault>
    ensures { DoesInside S.Store tx.old.conn tx.new.conn result
        (λ is. Finds (λ books. is ≡ list_any (bytes_eq name.now) books.catalogue.countries)) }
{
    shows_row(tx, SELECT_COUNTRY_NAMED, &[name.to_sql()])
}

const SELECT_LANGUAGE_NAMED: &str = "SELECT number FROM language WHERE name = ?1";

/// Returns whether a language has the name, by its bytes.
pub fn is_language<S: Alter>(tx: &mut Transaction<'_, S>, name: &str) -> Result<bool, StoreFault>
    ensures { DoesInside S.Store tx.old.conn tx.new.conn result
        (λ is. Finds (λ books. is ≡ list_any (bytes_eq name.now) books.catalogue.languages)) }
{
    shows_row(tx, SELECT_LANGUAGE_NAMED, &[name.to_sql()])
}

const SELECT_CATEGORY_NAMED: &str = "SELECT number FROM category WHERE name = ?1";

/// Returns whether a category has the name, by its bytes.
pub fn is_category<S: Alter>(tx: &mut Transaction<'_, S>, name: &str) -> Result<bool, StoreFault>
    ensures { DoesInside S.Store tx.old.conn tx.new.conn result
        (λ is. Finds (λ books. is ≡ list_any (bytes_eq name.now) books.catalogue.categories)) }
{
    shows_row(tx, SELECT_CATEGORY_NAMED, &[name.to_sql()])
}

/// Returns whether a branch has the token. Head office's token is not checked.
pub fn has_token<S: Alter>(tx: &mut Transaction<'_, S>, token: &Token) -> Result<bool, StoreFault>
    ensures { DoesInside S.Store tx.old.conn tx.new.conn result
        (λ has. Finds (λ books. has ≡ list_any (λ it. bytes_eq it.token token.now) books.catalogue.branches)) }
{
    shows_row(tx, SELECT_WITH_TOKEN, &[token_text(token).to_sql()])
}

const SELECT_CAST: &str = "SELECT film FROM film_actor WHERE film = ?1 AND actor = ?2";

/// Returns whether the actor is in the film's cast.
pub fn has_cast<S: Alter>(
    tx: &mut Transaction<'_, S>,
    film: FilmNo,
    actor: ActorNo,
) -> Result<bool, StoreFault>
    ensures { DoesInside S.Store tx.old.conn tx.new.conn result
        (λ has. Finds (λ books. has ≡ list_any (λ it. it.film == film && it.actor == actor) books.catalogue.casts)) }
{
    shows_row(
        tx,
        SELECT_CAST,
        &[film.get().to_sql(), actor.get().to_sql()],
    )
}
