//! How each shared row is added. A row's number is one more than that of the last row of its table.

ghost use Rattle.std.specs.Prelude.{⊤, ◌≡◌, ◌+◌, [], ◌∷◌, ◌++◌, length};
ghost use Rattle.sqlite.specs.Values.{bound, or_null};
ghost use Rattle.sqlite_value.specs.Value.{owned};
ghost use Rattle.sql_rows.specs.Calls.{DoesInside};
ghost use Rattle.sql_rows.specs.Rows.{number_value};
ghost use Rattle.shop_model.specs.Rows.{owned_by};
ghost use Rattle.shop_ledger.specs.Calls.{Stores};
ghost use Rattle.shop_schema.specs.RowValues.{city_columns, actor_columns, film_columns, staff_columns};
ghost use Rattle.shop_store.specs.New.{seen_city, seen_actor, seen_film, seen_branch, seen_staff, branch_params};

use shop_types::{
    ActorNo, BranchNo, CategoryNo, CityNo, CountryNo, FilmNo, LanguageNo, StaffNo, Token,
};
use sql_rows::{StoreFault, execute};
use sqlite::types::{ToSql, ValueRef};
use sqlite::{Alter, Transaction};

/// A city that is to be added.
#[derive(Clone, Copy)]
pub struct NewCity<'a> {
    pub number: CityNo,
    pub name: &'a str,
    pub country: CountryNo,
}

/// An actor who is to be added.
#[derive(Clone, Copy)]
pub struct NewActor<'a> {
    pub number: ActorNo,
    pub first: &'a str,
    pub last: &'a str,
}

/// A film that is to be added.
#[derive(Clone, Copy)]
pub struct NewFilm<'a> {
    pub number: FilmNo,
    pub title: &'a str,
    pub description: &'a str,
    pub language: LanguageNo,
    pub category: CategoryNo,
    /// For how many days it is rented.
    pub period: u32,
    /// What a rental costs, in cents.
    pub rate: u32,
    /// What a copy that is not brought back costs, in cents.
    pub replacement: u32,
    /// How long it takes, if that is known.
    pub minutes: Option<u32>,
    pub rating: &'a str,
    /// The special features, as the sample database writes them.
    pub features: &'a str,
    pub withdrawn: bool,
}

/// A branch that is to be added, which has no command yet.
#[derive(Clone, Copy)]
pub struct NewBranch<'a> {
    pub number: BranchNo,
    pub token: &'a Token,
    pub address: &'a str,
    pub postal: &'a str,
    pub phone: &'a str,
    pub city: CityNo,
    pub manager: Option<StaffNo>,
}

/// A member of staff who is to be added.
#[derive(Clone, Copy)]
pub struct NewStaff<'a> {
    pub number: StaffNo,
    pub branch: BranchNo,
    pub first: &'a str,
    pub last: &'a str,
    pub address: &'a str,
    pub postal: &'a str,
    pub phone: &'a str,
    pub city: CityNo,
    /// Whether the member of staff left.
    pub gone: bool,
}

fn staff_or_null(staff: Option<StaffNo>) -> ValueRef<'static>
    ensures { owned result ≡ or_null number_value staff }
{
    match staff {
        Some(number) => number.get().to_sql(),
        None => ValueRef::Null,
    }
}

impl NewCity<'_> {
    fn values(&self) -> [ValueRef<'_>; 3]
        ensures { bound result ≡ city_columns (self.now.number, seen_city self.now) }
    {
        [
            self.number.get().to_sql(),
            self.name.to_sql(),
            self.country.get().to_sql(),
        ]
    }
}

impl NewActor<'_> {
    fn values(&self) -> [ValueRef<'_>; 3]
        ensures { bound result ≡ actor_columns (self.now.number, seen_actor self.now) }
    {
        [
            self.number.get().to_sql(),
            self.first.to_sql(),
            self.last.to_sql(),
        ]
    }
}

impl NewFilm<'_> {
    fn values(&self) -> [ValueRef<'_>; 12]
        ensures { bound result ≡ film_columns (self.now.number, seen_film self.now) }
    {
        [
            self.number.get().to_sql(),
            self.title.to_sql(),
            self.description.to_sql(),
            self.language.get().to_sql(),
            self.category.get().to_sql(),
            self.period.to_sql(),
            self.rate.to_sql(),
            self.replacement.to_sql(),
            self.minutes.to_sql(),
            self.rating.to_sql(),
            self.features.to_sql(),
            self.withdrawn.to_sql(),
        ]
    }
}

impl NewBranch<'_> {
    /// Returns the columns but the last moment, which is NULL.
    fn values(&self) -> [ValueRef<'_>; 7]
        ensures { bound result ≡ branch_params self.now.number (seen_branch self.now) }
    {
        [
            self.number.get().to_sql(),
            ValueRef::Text(self.token.as_bytes()),
            self.address.to_sql(),
            self.postal.to_sql(),
            self.phone.to_sql(),
            self.city.get().to_sql(),
            staff_or_null(self.manager),
        ]
    }
}

impl NewStaff<'_> {
    fn values(&self) -> [ValueRef<'_>; 9]
        ensures { bound result ≡ staff_columns (self.now.number, seen_staff self.now) }
    {
        [
            self.number.get().to_sql(),
            self.branch.get().to_sql(),
            self.first.to_sql(),
            self.last.to_sql(),
            self.address.to_sql(),
            self.postal.to_sql(),
            self.phone.to_sql(),
            self.city.get().to_sql(),
            self.gone.to_sql(),
        ]
    }
}

const INSERT_COUNTRY: &str = "INSERT INTO country (number, name) VALUES (?1, ?2)";

/// Adds the country. After a fault the transaction may be rolled back.
pub fn put_country<S: Alter>(
    tx: &mut Transaction<'_, S>,
    number: CountryNo,
    name: &str,
) -> Result<(), StoreFault>
    ensures { DoesInside S.Store tx.old.conn tx.new.conn result
        (λ _. Stores (λ books. number ≡ length books.catalogue.countries + 1) (λ books. record books
        { catalogue = record books.catalogue { countries = books.catalogue.countries ++ name.now ∷ [] } })) }
{
    execute(tx, INSERT_COUNTRY, &[number.get().to_sql(), name.to_sql()])
}

const INSERT_LANGUAGE: &str = "INSERT INTO language (number, name) VALUES (?1, ?2)";

/// Adds the language. After a fault the transaction may be rolled back.
pub fn put_language<S: Alter>(
    tx: &mut Transaction<'_, S>,
    number: LanguageNo,
    name: &str,
) -> Result<(), StoreFault>
    ensures { DoesInside S.Store tx.old.conn tx.new.conn result
        (λ _. Stores (λ books. number ≡ length books.catalogue.languages + 1) (λ books. record books
        { catalogue = record books.catalogue { languages = books.catalogue.languages ++ name.now ∷ [] } })) }
{
    execute(tx, INSERT_LANGUAGE, &[number.get().to_sql(), name.to_sql()])
}

const INSERT_CATEGORY: &str = "INSERT INTO category (number, name) VALUES (?1, ?2)";

/// Adds the category. After a fault the transaction may be rolled back.
pub fn put_category<S: Alter>(
    tx: &mut Transaction<'_, S>,
    number: CategoryNo,
    name: &str,
) -> Result<(), StoreFault>
    ensures { DoesInside S.Store tx.old.conn tx.new.conn result
        (λ _. Stores (λ books. number ≡ length books.catalogue.categories + 1) (λ books. record books
        { catalogue = record books.catalogue { categories = books.catalogue.categories ++ name.now ∷ [] } })) }
{
    execute(tx, INSERT_CATEGORY, &[number.get().to_sql(), name.to_sql()])
}

const INSERT_CITY: &str = "INSERT INTO city (number, name, country) VALUES (?1, ?2, ?3)";

/// Adds the city. After a fault the transaction may be rolled back.
pub fn put_city<S: Alter>(tx: &mut Transaction<'_, S>, city: &NewCity<'_>) -> Result<(), StoreFault>
    ensures { DoesInside S.Store tx.old.conn tx.new.conn result
        (λ _. Stores (λ books. city.now.number ≡ length books.catalogue.cities + 1) (λ books. record books
        { catalogue = record books.catalogue { cities = books.catalogue.cities ++ seen_city city.now ∷ [] } })) }
{
    execute(tx, INSERT_CITY, &city.values())
}

const INSERT_ACTOR: &str = "INSERT INTO actor (number, first, last) VALUES (?1, ?2, ?3)";

/// Adds the actor. After a fault the transaction may be rolled back.
pub fn put_actor<S: Alter>(
    tx: &mut Transaction<'_, S>,
    actor: &NewActor<'_>,
) -> Result<(), StoreFault>
    ensures { DoesInside S.Store tx.old.conn tx.new.conn result
        (λ _. Stores (λ books. actor.now.number ≡ length books.catalogue.actors + 1) (λ books. record books
        { catalogue = record books.catalogue { actors = books.catalogue.actors ++ seen_actor actor.now ∷ [] } })) }
{
    execute(tx, INSERT_ACTOR, &actor.values())
}

const INSERT_FILM: &str =
    "INSERT INTO film (number, title, description, language, category, period, rate, replacement, length, rating, features, withdrawn) VALUES (?1, ?2, ?3, ?4, ?5, ?6, ?7, ?8, ?9, ?10, ?11, ?12)";

/// Adds the film. After a fault the transaction may be rolled back.
pub fn put_film<S: Alter>(tx: &mut Transaction<'_, S>, film: &NewFilm<'_>) -> Result<(), StoreFault>
    ensures { DoesInside S.Store tx.old.conn tx.new.conn result
        (λ _. Stores (λ books. film.now.number ≡ length books.catalogue.films + 1) (λ books. record books
        { catalogue = record books.catalogue { films = books.catalogue.films ++ seen_film film.now ∷ [] } })) }
{
    execute(tx, INSERT_FILM, &film.values())
}

const INSERT_CAST: &str = "INSERT INTO film_actor (film, actor) VALUES (?1, ?2)";

/// Adds that the actor is cast in the film. After a fault the transaction may be rolled back.
pub fn put_cast<S: Alter>(
    tx: &mut Transaction<'_, S>,
    film: FilmNo,
    actor: ActorNo,
) -> Result<(), StoreFault>
    ensures { DoesInside S.Store tx.old.conn tx.new.conn result
        (λ _. Stores (λ _. ⊤) (λ books. record books {
          catalogue = record books.catalogue
              { casts = books.catalogue.casts ++ record { film = film; actor = actor } ∷ [] };
        })) }
{
    execute(
        tx,
        INSERT_CAST,
        &[film.get().to_sql(), actor.get().to_sql()],
    )
}

const INSERT_BRANCH: &str =
    "INSERT INTO branch (number, token, address, postal, phone, city, manager, last_moment) VALUES (?1, ?2, ?3, ?4, ?5, ?6, ?7, NULL)";

/// Adds the branch, which has no last moment. After a fault the transaction may be rolled back.
pub fn put_branch<S: Alter>(
    tx: &mut Transaction<'_, S>,
    branch: &NewBranch<'_>,
) -> Result<(), StoreFault>
    ensures { DoesInside S.Store tx.old.conn tx.new.conn result
        (λ _. Stores (λ books. (branch.now.number ≡ length books.catalogue.branches + 1)
        × (owned_by branch.now.number books.lasts ≡ [])) (λ books. record books {
          catalogue = record books.catalogue
              { branches = books.catalogue.branches ++ seen_branch branch.now ∷ [] };
        })) }
{
    execute(tx, INSERT_BRANCH, &branch.values())
}

const INSERT_STAFF: &str =
    "INSERT INTO staff (number, branch, first, last, address, postal, phone, city, gone) VALUES (?1, ?2, ?3, ?4, ?5, ?6, ?7, ?8, ?9)";

/// Adds the member of staff. After a fault the transaction may be rolled back.
pub fn put_staff<S: Alter>(
    tx: &mut Transaction<'_, S>,
    staff: &NewStaff<'_>,
) -> Result<(), StoreFault>
    ensures { DoesInside S.Store tx.old.conn tx.new.conn result
        (λ _. Stores (λ books. staff.now.number ≡ length books.catalogue.staff + 1) (λ books. record books
        { catalogue = record books.catalogue { staff = books.catalogue.staff ++ seen_staff staff.now ∷ [] } })) }
{
    execute(tx, INSERT_STAFF, &staff.values())
}
