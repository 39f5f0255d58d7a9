//! Films in the list of films, each with its actors.

ghost use Rattle.std.specs.Prelude.{◌≡◌, IfOk};
ghost use Rattle.serde_json.specs.View.{view};
ghost use Rattle.shop_model.specs.Views.{listed_film};
ghost use Rattle.shop_views.specs.Films.{film_with, seen_film, film_data, film_written, film_no_float};

use crate::joins::joined;
use crate::lists::ListedRow;
use crate::names::PersonName;
use crate::{Field, object_of};
use serde_json::Value;
use shop_types::{FilmNo, L45, L500, Minutes, Rate, Rating, T128};
use std::alloc::{AllocError, Global};

/// A film with the name of its category and its actors.
#[derive(Drop)]
pub struct ListedFilm {
    pub number: FilmNo,
    pub title: T128,
    pub description: L500,
    /// The category's name. It is empty if there is no such category.
    pub category: L45,
    /// The price of a rental of the film.
    pub rate: Rate,
    pub minutes: Option<Minutes>,
    pub rating: Rating,
    /// The actors, in the order of their numbers.
    pub actors: Vec<PersonName>,
}

/// Makes the film's object, with the text of its actors.
fn film_object<'a>(alloc: Global, row: &'a ListedFilm, actors: &'a str) -> Result<Value, AllocError>
    ensures { IfOk result (λ v. view v ≡ film_data (film_with actors.now row.now)) }
{
    let length = match row.minutes {
        Some(minutes) => Field::Number("length", minutes.get() as u64),
        None => Field::Null("length"),
    };
    object_of(
        alloc,
        &[
            Field::Text("actors", actors),
            Field::Text("category", row.category.as_str()),
            Field::Text("description", row.description.as_str()),
            Field::Number("film", row.number.get() as u64),
            length,
            Field::Number("price", row.rate.get() as u64),
            Field::Text("rating", row.rating.text()),
            Field::Text("title", row.title.as_str()),
        ],
    )
}

/// A film of `film_list`, as an object. `length` is `null` if the length isn't known.
impl ListedRow for ListedFilm {
    ghost json = { λ row. film_data (seen_film row) };

    ghost written = { λ row. listed_film (seen_film row) };

    fn value(alloc: Global, row: &ListedFilm) -> Result<Value, AllocError> {
        let actors = joined(alloc, row.actors.as_slice(), ", ")?;
        film_object(alloc, row, actors.as_str())
    }

    ghost as_written = { λ row. film_written (seen_film row) };

    ghost no_float = { λ row. film_no_float (seen_film row) };
}
