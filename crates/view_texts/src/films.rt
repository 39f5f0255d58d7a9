//! The list of all films, each with its actors. Neighbouring rows of one join belong to one film.

ghost use Rattle.std.specs.Prelude.{⊤, ◌≡◌, List, [], ◌∷◌, ◌++◌, Option, Some, IfOk, OnOk, map, option_map, string_bytes};
ghost use Rattle.sqlite.specs.Held.{state};
ghost use Rattle.sqlite.specs.State.{HasCleanDisk};
ghost use Rattle.sql_rows.specs.Calls.{StaysSame};
ghost use Rattle.sqlite.specs.Values.{or_null};
ghost use Rattle.sqlite.specs.declared.types.Value.TheVariants.{Text as SqlText};
ghost use Rattle.sqlite_value.specs.Order.{column};
ghost use Rattle.sql_rows.specs.Rows.{number_value};
ghost use Rattle.shop_model.specs.Json.{array};
ghost use Rattle.shop_model.specs.Shop.{Catalogue};
ghost use Rattle.shop_model.specs.Books.{Books};
ghost use Rattle.shop_model.specs.Views.{FilmRow as ModelFilm, film_list, listed_film};
ghost use Rattle.shop_types.specs.Films.{rating_text};
ghost use Rattle.shop_schema.specs.Shop.{Holds};
ghost use Rattle.shop_schema.specs.Held.{IsHeld};
ghost use Rattle.shop_views.specs.Films.{film_with};
ghost use Rattle.shop_views.specs.Page.{HasTexts};
ghost use Rattle.view_texts.specs.Shown.{FilmLine, shown_film};
ghost use Rattle.view_texts.specs.Films.{names_of, film_alone, seen_part, take_line, closed, HasFilms};

use crate::people::{name_at, person_name_or_null_at};
use shop_schema::{bounded_at, row_number_at, text_at};
use shop_types::{Minutes, Rating};
use shop_views::ListPage;
use shop_views::films::ListedFilm;
use sql_rows::{StoreFault, TakesRows, each_row, number_or_null_at, words_at};
use sqlite::{Alter, Connection, Row};
use std::alloc::{AllocError, Global};

/// Reads the length in the column, or none if the column is NULL.
fn minutes_at(row: &Row, at: usize) -> Result<Option<Minutes>, StoreFault>
    ensures { IfOk result (λ o. column row.now at ≡ or_null number_value o) }
{
    let Some(number) = number_or_null_at(row, at)? else {
        return Ok(None);
    };
    match Minutes::new(number) {
        Some(minutes) => Ok(Some(minutes)),
        None => Err(StoreFault::Failed),
    }
}

/// Reads the rating in the column.
fn rating_at(row: &Row, at: usize) -> Result<Rating, StoreFault>
    ensures { IfOk result (λ rating. column row.now at ≡ SqlText (rating_text rating)) }
{
    match Rating::read(words_at(row, at)?.as_str()) {
        Some(rating) => Ok(rating),
        None => Err(StoreFault::Failed),
    }
}

/// Reads the film of the row, without its actor.
fn film_at(alloc: Global, row: &Row) -> Result<ListedFilm, StoreFault>
    ensures film { IfOk result (λ it. (catalogue : Catalogue) (line : FilmLine) → row.now ≡ shown_film catalogue line
        → film_with [] it ≡ film_alone catalogue line.0) }
    ensures none { IfOk result (λ it. it.actors.items ≡ []) }
{
    Ok(ListedFilm {
        number: row_number_at(row, 0)?,
        rate: bounded_at(row, 4)?,
        minutes: minutes_at(row, 5)?,
        rating: rating_at(row, 6)?,
        title: text_at(row, 1)?,
        description: text_at(row, 2)?,
        category: name_at(alloc, row, 3)?,
        actors: Vec::new(alloc),
    })
}

/// Adds the row's actor to the film.
fn with_actor(film: ListedFilm, row: &Row) -> Result<ListedFilm, StoreFault>
    ensures { IfOk result (λ it. (catalogue : Catalogue) (line : FilmLine) → row.now ≡ shown_film catalogue line
        → seen_part it ≡ ((seen_part film).0, (seen_part film).1 ++ names_of line.1)) }
{
    let mut film = film;
    if let Some(name) = person_name_or_null_at(row, 7, 8)? {
        film.actors.push(name)?;
    }
    Ok(film)
}

/// Takes a row: returns the row's film with the row's actor. If the film before was another one, that film goes on the
/// page.
fn next_film(
    alloc: Global,
    film: Option<ListedFilm>,
    row: &Row,
    page: &mut ListPage,
) -> Result<ListedFilm, StoreFault>
    ensures { IfOk result (λ it. (catalogue : Catalogue) (line : FilmLine) (films : List ModelFilm)
        → row.now ≡ shown_film catalogue line → HasTexts page.old (map listed_film films)
        → HasTexts page.new (map listed_film (take_line catalogue (films, option_map seen_part film) line).0)
        × (Some (seen_part it) ≡ (take_line catalogue (films, option_map seen_part film) line).1)) }
{
    let Some(film) = film else {
        return with_actor(film_at(alloc, row)?, row);
    };
    if row_number_at(row, 0)? == film.number {
        with_actor(film, row)
    } else {
        page.add_row(&film)?;
        with_actor(film_at(alloc, row)?, row)
    }
}

/// The list of films so far, and the film that isn't on the list yet.
#[derive(Drop)]
pub(crate) struct FilmPage {
    page: ListPage,
    alloc: Global,
    film: Option<ListedFilm>,
}

impl TakesRows for FilmPage {
    ghost took = { HasFilms };

    ghost refuses = { λ _ _. ⊤ };

    fn take(&mut self, row: &Row) -> Result<(), StoreFault> {
        let film = self.film.take();
        self.film = Some(next_film(self.alloc, film, row, &mut self.page)?);
        Ok(())
    }
}

/// Adds the last film, and returns the list's text.
fn finish(taker: FilmPage) -> Result<String, AllocError>
    ensures { IfOk result (λ s. (films : List ModelFilm) → HasTexts taker.page (map listed_film films)
        → string_bytes s ≡ array (map listed_film (closed (films, option_map seen_part taker.film)))) }
{
    let FilmPage { mut page, film, .. } = taker;
    match film {
        Some(film) => {
            page.add_row(&film)?;
            page.finish()
        }
        None => page.finish(),
    }
}

const SELECT_FILMS: &str =
    "SELECT f.number, f.title, f.description, k.name, f.rate, f.length, f.rating, a.first, a.last FROM film AS f LEFT JOIN category AS k ON k.number = f.category LEFT JOIN film_actor AS fa ON fa.film = f.number LEFT JOIN actor AS a ON a.number = fa.actor ORDER BY f.number, fa.actor";

/// Returns all films as the text of a list. Withdrawn films and films without actors are listed too. The database
/// stays as it was, unless the store fails, which commits nothing.
pub fn film_list<S: Alter>(alloc: Global, conn: &mut Connection<S>) -> Result<String, StoreFault>
    ensures text { HasCleanDisk (state S.Store conn.new)
        → IfOk result (λ s. (books : Books) → Holds (state S.Store conn.old) books → IsHeld books → string_bytes s
        ≡ array (map listed_film (film_list books.catalogue))) }
    ensures same { StaysSame S.Store conn.old conn.new result }
{
    let mut taker = FilmPage {
        page: ListPage::new(alloc),
        alloc,
        film: None,
    };
    each_row(conn, SELECT_FILMS, &[], &mut taker)?;
    Ok(finish(taker)?)
}
