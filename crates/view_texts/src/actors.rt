//! The list of all actors, each with the actor's films by category. Neighbouring rows of one join belong to one actor,
//! and among them neighbouring rows belong to one category.

ghost use Rattle.std.specs.Prelude.{⊤, ◌≡◌, List, [], ◌∷◌, ◌++◌, Option, Some, None, IfOk, OnOk, map, option_map, string_bytes};
ghost use Rattle.sqlite.specs.Held.{state};
ghost use Rattle.sqlite.specs.State.{HasCleanDisk};
ghost use Rattle.sql_rows.specs.Calls.{StaysSame};
ghost use Rattle.shop_model.specs.Json.{array};
ghost use Rattle.shop_model.specs.Books.{Books};
ghost use Rattle.shop_model.specs.Values.{Text};
ghost use Rattle.shop_model.specs.Views.{ActorRow as ModelActor, actor_info, listed_actor};
ghost use Rattle.shop_schema.specs.Shop.{Holds};
ghost use Rattle.shop_schema.specs.Held.{IsHeld};
ghost use Rattle.shop_views.specs.Films.{seen_actor};
ghost use Rattle.shop_views.specs.Page.{HasTexts};
ghost use Rattle.view_texts.specs.Actors.{ActorLine, shown_actor, told_film, take_film, take_any, every_group, seen_group, seen_open, seen_groups, seen_told, actor_alone, whole, seen_part, take_line, HasActors, closed};

use crate::people::person_name_at;
use shop_schema::{row_number_at, text_at};
use shop_types::{ActorNo, CategoryNo, T45, T128};
use shop_views::actors::{ActorRow, FilmGroup};
use shop_views::{ListPage, PersonName};
use sql_rows::{StoreFault, TakesRows, each_row, number_or_null_at};
use sqlite::{Alter, Connection, Row};
use std::alloc::{AllocError, Global};

/// A film of an actor, by its category and title.
#[derive(Drop)]
pub(crate) struct CategoryFilm {
    number: CategoryNo,
    category: T45,
    title: T128,
}

/// The films of a category that more rows may belong to.
#[derive(Drop)]
pub(crate) struct OpenGroup {
    number: CategoryNo,
    films: FilmGroup,
}

/// The films of an actor so far, by category.
#[derive(Drop)]
pub(crate) struct FilmGroups {
    complete: Vec<FilmGroup>,
    last: Option<OpenGroup>,
}

/// An actor with the films so far.
#[derive(Drop)]
pub(crate) struct StartedActor {
    number: ActorNo,
    name: PersonName,
    groups: FilmGroups,
}

/// Reads the film of the row, or none if the row has none.
fn film_at(row: &Row) -> Result<Option<CategoryFilm>, StoreFault>
    ensures { IfOk result (λ film. (line : ActorLine) → row.now ≡ shown_actor line
        → option_map seen_told film ≡ option_map told_film line.1) }
{
    if number_or_null_at(row, 3)?.is_none() {
        return Ok(None);
    }
    Ok(Some(CategoryFilm {
        number: row_number_at(row, 3)?,
        category: text_at(row, 4)?,
        title: text_at(row, 5)?,
    }))
}

/// Reads the actor of the row, without the row's film.
fn actor_at(alloc: Global, row: &Row) -> Result<StartedActor, StoreFault>
    ensures { IfOk result (λ it. (line : ActorLine) → row.now ≡ shown_actor line
        → seen_part it ≡ (actor_alone line.0, ([], None))) }
{
    Ok(StartedActor {
        number: row_number_at(row, 0)?,
        name: person_name_at(row, 1, 2)?,
        groups: FilmGroups {
            complete: Vec::new(alloc),
            last: None,
        },
    })
}

/// Begins a category with its first film.
fn opened(alloc: Global, film: CategoryFilm) -> Result<OpenGroup, AllocError>
    ensures { IfOk result (λ it. seen_open it ≡ (film.number, (film.category, film.title ∷ []))) }
{
    let CategoryFilm {
        number,
        category,
        title,
    } = film;
    let mut titles = Vec::new(alloc);
    titles.push(title)?;
    Ok(OpenGroup {
        number,
        films: FilmGroup { category, titles },
    })
}

/// Adds a film's title to the category.
fn with_title(group: OpenGroup, title: T128) -> Result<OpenGroup, AllocError>
    ensures { IfOk result (λ it. seen_open it
        ≡ (group.number, (group.films.category, group.films.titles.items ++ title ∷ []))) }
{
    let mut group = group;
    group.films.titles.push(title)?;
    Ok(group)
}

/// Adds a film to the films. The film begins a new category, unless the film before it is of the same category.
fn with_film(
    alloc: Global,
    groups: FilmGroups,
    film: CategoryFilm,
) -> Result<FilmGroups, AllocError>
    ensures { IfOk result (λ it. seen_groups it ≡ take_film (seen_groups groups) (seen_told film)) }
{
    let FilmGroups { complete, last } = groups;
    let Some(group) = last else {
        return Ok(FilmGroups {
            complete,
            last: Some(opened(alloc, film)?),
        });
    };
    if film.number == group.number {
        return Ok(FilmGroups {
            complete,
            last: Some(with_title(group, film.title)?),
        });
    }
    let mut complete = complete;
    complete.push(group.films)?;
    Ok(FilmGroups {
        complete,
        last: Some(opened(alloc, film)?),
    })
}

/// Adds the row's film to the actor.
fn with_row(alloc: Global, actor: StartedActor, row: &Row) -> Result<StartedActor, StoreFault>
    ensures { IfOk result (λ it. (line : ActorLine) → row.now ≡ shown_actor line
        → seen_part it ≡ ((seen_part actor).0, take_any (seen_part actor).1 (option_map told_film line.1))) }
{
    let StartedActor {
        number,
        name,
        groups,
    } = actor;
    match film_at(row)? {
        Some(film) => Ok(StartedActor {
            number,
            name,
            groups: with_film(alloc, groups, film)?,
        }),
        None => Ok(StartedActor {
            number,
            name,
            groups,
        }),
    }
}

/// Returns the films of all categories.
fn all_groups(groups: FilmGroups) -> Result<Vec<FilmGroup>, AllocError>
    ensures { IfOk result (λ all. map seen_group all.items ≡ every_group (seen_groups groups)) }
{
    let FilmGroups { mut complete, last } = groups;
    if let Some(group) = last {
        complete.push(group.films)?;
    }
    Ok(complete)
}

/// Completes the actor, who gets no more rows.
fn whole_actor(actor: StartedActor) -> Result<ActorRow, AllocError>
    ensures { IfOk result (λ row. seen_actor row ≡ whole (seen_part actor)) }
{
    let StartedActor {
        number,
        name,
        groups,
    } = actor;
    Ok(ActorRow {
        number,
        name,
        groups: all_groups(groups)?,
    })
}

/// Adds the actor to the page, as its last item.
fn add_actor(actor: StartedActor, page: &mut ListPage) -> Result<(), AllocError>
    ensures { OnOk result ((texts : List Text) → HasTexts page.old texts
        → HasTexts page.new (texts ++ listed_actor (whole (seen_part actor)) ∷ [])) }
{
    let row = whole_actor(actor)?;
    page.add_row(&row)
}

/// Takes a row: returns the row's actor with the row's film. If the actor before was another one, that actor goes on
/// the page.
fn next_actor(
    alloc: Global,
    actor: Option<StartedActor>,
    row: &Row,
    page: &mut ListPage,
) -> Result<StartedActor, StoreFault>
    ensures { IfOk result (λ it. (line : ActorLine) (actors : List ModelActor) → row.now ≡ shown_actor line
        → HasTexts page.old (map listed_actor actors)
        → HasTexts page.new (map listed_actor (take_line (actors, option_map seen_part actor) line).0)
        × (Some (seen_part it) ≡ (take_line (actors, option_map seen_part actor) line).1)) }
{
    let Some(actor) = actor else {
        return with_row(alloc, actor_at(alloc, row)?, row);
    };
    if row_number_at(row, 0)? == actor.number {
        with_row(alloc, actor, row)
    } else {
        add_actor(actor, page)?;
        with_row(alloc, actor_at(alloc, row)?, row)
    }
}

/// The list of actors so far, and the actor that isn't on the list yet.
#[derive(Drop)]
pub(crate) struct ActorPage {
    page: ListPage,
    alloc: Global,
    actor: Option<StartedActor>,
}

impl TakesRows for ActorPage {
    ghost took = { HasActors };

    ghost refuses = { λ _ _. ⊤ };

    fn take(&mut self, row: &Row) -> Result<(), StoreFault> {
        let actor = self.actor.take();
        self.actor = Some(next_actor(self.alloc, actor, row, &mut self.page)?);
        Ok(())
    }
}

/// Adds the last actor, and returns the list's text.
fn finish(taker: ActorPage) -> Result<String, AllocError>
    ensures { IfOk result (λ s. (actors : List ModelActor) → HasTexts taker.page (map listed_actor actors)
        → string_bytes s ≡ array (map listed_actor (closed (actors, option_map seen_part taker.actor)))) }
{
    let ActorPage {
        mut page,
        actor,
        ..
    } = taker;
    match actor {
        Some(actor) => {
            add_actor(actor, &mut page)?;
            page.finish()
        }
        None => page.finish(),
    }
}

const SELECT_ACTORS: &str =
    "SELECT a.number, a.first, a.last, k.number, k.name, f.title FROM actor AS a LEFT JOIN film_actor AS fa ON fa.actor = a.number LEFT JOIN film AS f ON f.number = fa.film LEFT JOIN category AS k ON k.number = f.category ORDER BY a.number, k.name, k.number, f.title, f.number";

/// Returns all actors as the text of a list, each with the actor's films by category. Actors without a film are listed
/// too. The database stays as it was, unless the store fails, which commits nothing.
pub fn actor_info<S: Alter>(alloc: Global, conn: &mut Connection<S>) -> Result<String, StoreFault>
    ensures text { HasCleanDisk (state S.Store conn.new)
        → IfOk result (λ s. (books : Books) → Holds (state S.Store conn.old) books → IsHeld books → string_bytes s
        ≡ array (map listed_actor (actor_info books.catalogue))) }
    ensures same { StaysSame S.Store conn.old conn.new result }
{
    let mut taker = ActorPage {
        page: ListPage::new(alloc),
        alloc,
        actor: None,
    };
    each_row(conn, SELECT_ACTORS, &[], &mut taker)?;
    Ok(finish(taker)?)
}
