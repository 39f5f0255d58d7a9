ghost use Rattle.std.specs.Prelude.{◌≡◌, IfOk, string_bytes};
ghost use Rattle.serde_json.specs.View.{view};
ghost use Rattle.shop_model.specs.Answers.{film_text};
ghost use Rattle.shop_types.specs.Seen.{seen_film};
ghost use Rattle.shop_views.specs.FilmBodies.{film_value};

use crate::fields::{Field, object_of};
use serde_json::Value;
use shop_types::{Film, FilmNo};
use std::alloc::{AllocError, Global};

fn film_value(
    alloc: Global,
    number: FilmNo,
    film: &Film,
    withdrawn: bool,
) -> Result<Value, AllocError>
    ensures { IfOk result (λ v. view v ≡ film_value number (record (seen_film film.now) { withdrawn = withdrawn })) }
{
    let length = match film.minutes {
        Some(minutes) => Field::Number("length", minutes.get() as u64),
        None => Field::Null("length"),
    };
    object_of(
        alloc,
        &[
            Field::Number("category", film.category.get() as u64),
            Field::Text("description", film.description.as_str()),
            Field::Text("features", film.features.text()),
            Field::Number("film", number.get() as u64),
            Field::Number("language", film.language.get() as u64),
            length,
            Field::Number("period", film.period.get() as u64),
            Field::Number("rate", film.rate.get() as u64),
            Field::Text("rating", film.rating.text()),
            Field::Number("replacement", film.replacement.get() as u64),
            Field::Text("title", film.title.as_str()),
            Field::Flag("withdrawn", withdrawn),
        ],
    )
}

/// Writes the body that shows a film and its number, withdrawn or not. Language and category are their numbers.
/// `length` is `null` if the length isn't known.
pub fn film_text(
    alloc: Global,
    number: FilmNo,
    film: &Film,
    withdrawn: bool,
) -> Result<String, AllocError>
    ensures { IfOk result (λ s. string_bytes s
        ≡ film_text number (record (seen_film film.now) { withdrawn = withdrawn })) }
{
    film_value(alloc, number, film, withdrawn)?.to_string(alloc)
}
