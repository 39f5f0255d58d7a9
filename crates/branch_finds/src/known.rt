//! Finds a film as it is now: in the chain's cache of films, or else in the store.

ghost use Rattle.std.specs.Prelude.{◌≡◌, map, option_map};
ghost use Rattle.sql_rows.specs.Calls.{DoesWithin};
ghost use Rattle.shop_model.specs.Rows.{at};
ghost use Rattle.shop_model.specs.Books.{head};
ghost use Rattle.chain_caches.specs.Films.{known_of, seen_known};
ghost use Rattle.shop_ledger.specs.Calls.{Finds};
ghost use Rattle.shop_store.specs.SharedSeen.{seen_film_row, withdrawn_of};
ghost use Rattle.branch_finds.specs.Finds.{Knows};

use chain_caches::{FilmCache, KnownFilm};
use shop_store::films::{FilmRow, film_row};
use shop_types::{FilmNo, Terms};
use sql_rows::StoreFault;
use sqlite::{Alter, Transaction};

/// Finds the terms of a rental of the film that begins now, and whether the film is withdrawn, if there is such a film.
pub fn find_film<S: Alter>(
    tx: &mut Transaction<'_, S>,
    films: &mut FilmCache,
    number: FilmNo,
) -> Result<Option<KnownFilm>, StoreFault>
    ensures { DoesWithin S.Store tx.old.conn tx.new.conn result
        (λ film. Finds (Knows films.old films.new
        (λ books. option_map seen_known film ≡ head (map known_of (at number books.catalogue.films))))) }
{
    if let Some(film) = films.known(number) {
        return Ok(Some(film));
    }
    let Some(row) = film_row(tx, number)? else {
        return Ok(None);
    };
    let film = known_in(&row);
    films.put(number, &film);
    Ok(Some(film))
}

/// Finds whether the film is withdrawn, if there is such a film.
pub fn find_withdrawn<S: Alter>(
    tx: &mut Transaction<'_, S>,
    films: &mut FilmCache,
    number: FilmNo,
) -> Result<Option<bool>, StoreFault>
    ensures { DoesWithin S.Store tx.old.conn tx.new.conn result
        (λ withdrawn. Finds (Knows films.old films.new
        (λ books. withdrawn ≡ head (map withdrawn_of (at number books.catalogue.films))))) }
{
    match find_film(tx, films, number)? {
        Some(film) => Ok(Some(film.withdrawn)),
        None => Ok(None),
    }
}

/// Returns what the cache keeps of the film in the row.
fn known_in(row: &FilmRow) -> KnownFilm
    ensures { seen_known result ≡ known_of (seen_film_row row.now) }
{
    KnownFilm {
        terms: Terms {
            rate: row.film.rate,
            period: row.film.period,
            replacement: row.film.replacement,
        },
        withdrawn: row.withdrawn,
    }
}
