//! Actors in the list of actors, each with the actor's films by category.

ghost use Rattle.std.specs.Prelude.{◌≡◌, refl, IfOk};
ghost use Rattle.serde_json.specs.View.{view};
ghost use Rattle.shop_model.specs.Views.{listed_actor};
ghost use Rattle.shop_views.specs.Films.{films_text, seen_actor, actor_data};

use crate::joins::{Told, joined};
use crate::lists::ListedRow;
use crate::names::{PersonName, with_between};
use crate::{Field, object_of};
use serde_json::Value;
use shop_types::{ActorNo, T45, T128};
use std::alloc::{AllocError, Global};

/// An actor's films of one category.
#[derive(Drop)]
pub struct FilmGroup {
    /// The category's name.
    pub category: T45,
    /// The titles in byte order. Equal titles are in the order of their films' numbers.
    pub titles: Vec<T128>,
}

/// An actor with the actor's films by category.
#[derive(Drop)]
pub struct ActorRow {
    pub number: ActorNo,
    pub name: PersonName,
    /// The categories in which the actor has a film, in the byte order of their names.
    pub groups: Vec<FilmGroup>,
}

impl Told for T128 {
    ghost told = { λ title. title };

    fn text(alloc: Global, it: &T128) -> Result<String, AllocError> {
        String::from_str(alloc, it.as_str())
    }
}

/// Writes the films of a category: its name, a colon, and the titles with a comma and a blank between them.
impl Told for FilmGroup {
    ghost told = { films_text };

    fn text(alloc: Global, it: &FilmGroup) -> Result<String, AllocError> {
        let titles = joined(alloc, it.titles.as_slice(), ", ")?;
        with_between(alloc, it.category.as_str(), ": ", titles.as_str())
    }
}

/// Makes the actor's object, with the text of the actor's films.
fn actor_object<'a>(alloc: Global, row: &'a ActorRow, films: &'a str) -> Result<Value, AllocError>
    ensures { IfOk result (λ v. view v ≡ actor_data (record (seen_actor row.now) { films = films.now })) }
{
    object_of(
        alloc,
        &[
            Field::Number("actor", row.number.get() as u64),
            Field::Text("film_info", films),
            Field::Text("first", row.name.first.as_str()),
            Field::Text("last", row.name.last.as_str()),
        ],
    )
}

/// An actor of `actor_info`, as an object. If the actor plays in no film, `film_info` is empty.
impl ListedRow for ActorRow {
    ghost json = { λ row. actor_data (seen_actor row) };

    ghost written = { λ row. listed_actor (seen_actor row) };

    fn value(alloc: Global, row: &ActorRow) -> Result<Value, AllocError> {
        let films = joined(alloc, row.groups.as_slice(), "; ")?;
        actor_object(alloc, row, films.as_str())
    }

    ghost as_written = { λ row. refl };

    ghost no_float = { λ row. refl };
}
