//! Films: a film with all its columns, single columns of a film, and what head office sets in it.

ghost use Rattle.std.specs.Prelude.{⊤, ◌≡◌, true, IfErr, IfOk, length, map, option_map};
ghost use Rattle.std.specs.Option.{option_to_list};
ghost use Rattle.sqlite_value.specs.Order.{column};
ghost use Rattle.sql_rows.specs.Calls.{DoesInside};
ghost use Rattle.sql_rows.specs.Causes.{FailsByFaults};
ghost use Rattle.sql_rows.specs.Rows.{flag_value};
ghost use Rattle.sql_rows.specs.declared.fault.StoreFault.TheVariants.{Failed};
ghost use Rattle.shop_model.specs.Rows.{at, set_at};
ghost use Rattle.shop_model.specs.Books.{head};
ghost use Rattle.shop_ledger.specs.Calls.{Finds, Stores};
ghost use Rattle.shop_schema.specs.Asked.{HoldsBooks, ShowsFlag};
ghost use Rattle.shop_schema.specs.RowValues.{IsShared, IsFilm, film_columns};
ghost use Rattle.shop_store.specs.Asked.{IsNoneOf};
ghost use Rattle.shop_store.specs.SharedSeen.{seen_film_row, withdrawn_of};

use shop_schema::tables::FilmCells;
use shop_schema::{query_first, read_cells};
use shop_types::{Film, FilmNo, Rate};
use sql_rows::{StoreFault, Stored, execute, flag_at, query_one};
use sqlite::types::ToSql;
use sqlite::{Alter, Row, Transaction};

/// A film of the catalogue, with its number.
#[derive(Drop)]
pub struct FilmRow {
    pub number: FilmNo,
    pub film: Film,
    pub withdrawn: bool,
}

impl Stored for FilmRow {
    ghost columns = { λ row. film_columns (row.number, seen_film_row row) };

    ghost fits = { λ row. IsShared IsFilm (row.number, seen_film_row row) };

    ghost refuses = { IsNoneOf (IsShared IsFilm) film_columns };

    fn read(row: &Row) -> Result<FilmRow, StoreFault> {
        let cells = match read_cells::<FilmCells>(row) {
            Ok(cells) => cells,
            Err(fault) => return Err(fault),
        };
        let (number, (title, (description, (language, (category, priced))))) = cells;
        let (period, (rate, (replacement, (minutes, (rating, (features, (withdrawn, ()))))))) =
            priced;
        Ok(FilmRow {
            number,
            film: Film {
                title,
                description,
                language,
                category,
                period,
                rate,
                replacement,
                minutes,
                rating,
                features,
            },
            withdrawn,
        })
    }
}

const SELECT_FILM: &str =
    "SELECT number, title, description, language, category, period, rate, replacement, length, rating, features, withdrawn FROM film WHERE number = ?1";

/// Returns the film of the number, withdrawn or not, or none if there is no such film.
pub fn film_row<S: Alter>(
    tx: &mut Transaction<'_, S>,
    number: FilmNo,
) -> Result<Option<FilmRow>, StoreFault>
    ensures does { DoesInside S.Store tx.old.conn tx.new.conn result
        (λ row. Finds (λ books. option_to_list (option_map seen_film_row row) ≡ at number books.catalogue.films)) }
    ensures fails { FailsByFaults S.Store tx.old.conn tx.new.conn result HoldsBooks }
{
    query_one(tx, SELECT_FILM, &[number.get().to_sql()])
}

/// Returns whether the film in the row is withdrawn.
fn withdrawn_in(row: &Row) -> Result<bool, StoreFault>
    ensures ok { IfOk result (λ withdrawn. column row.now 0 ≡ flag_value withdrawn) }
    ensures failed { IfErr result (λ e. e ≡ Failed → ¬ ShowsFlag row.now) }
{
    flag_at(row, 0)
}

const SELECT_WITHDRAWN: &str = "SELECT withdrawn FROM film WHERE number = ?1";

/// Returns whether the film of the number is withdrawn, or none if there is no such film.
pub fn film_withdrawn<S: Alter>(
    tx: &mut Transaction<'_, S>,
    film: FilmNo,
) -> Result<Option<bool>, StoreFault>
    ensures does { DoesInside S.Store tx.old.conn tx.new.conn result
        (λ withdrawn. Finds (λ books. withdrawn ≡ head (map withdrawn_of (at film books.catalogue.films)))) }
    ensures fails { FailsByFaults S.Store tx.old.conn tx.new.conn result HoldsBooks }
{
    query_first(tx, SELECT_WITHDRAWN, &[film.get().to_sql()], withdrawn_in)
}

const UPDATE_RATE: &str = "UPDATE film SET rate = ?2 WHERE number = ?1";

/// Sets what a rental of the film costs. After a fault the transaction may be rolled back.
pub fn set_rate<S: Alter>(
    tx: &mut Transaction<'_, S>,
    film: FilmNo,
    rate: Rate,
) -> Result<(), StoreFault>
    ensures { DoesInside S.Store tx.old.conn tx.new.conn result
        (λ _. Stores (λ _. ⊤) (λ books. record books {
          catalogue = record books.catalogue
              { films = set_at film (λ f. record f { rate = rate }) books.catalogue.films };
        })) }
{
    execute(
        tx,
        UPDATE_RATE,
        &[film.get().to_sql(), u32::from(rate.get()).to_sql()],
    )
}

const UPDATE_WITHDRAWN: &str = "UPDATE film SET withdrawn = ?2 WHERE number = ?1";

/// Takes the film out of the catalogue. Its row stays, marked as withdrawn. After a fault the transaction may be rolled
/// back.
pub fn set_withdrawn<S: Alter>(tx: &mut Transaction<'_, S>, film: FilmNo) -> Result<(), StoreFault>
    ensures { DoesInside S.Store tx.old.conn tx.new.conn result
        (λ _. Stores (λ _. ⊤) (λ books. record books {
          catalogue = record books.catalogue
              { films = set_at film (λ f. record f { withdrawn = true }) books.catalogue.films };
        })) }
{
    execute(tx, UPDATE_WITHDRAWN, &[film.get().to_sql(), true.to_sql()])
}
