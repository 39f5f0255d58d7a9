//! Whether shared rows are sound.

ghost use Rattle.std.specs.Prelude.{◌≡◌, ◌&&◌, ◌+◌, ◌≤◌, ◌++◌, true, not, nat_le, IfOk, map, length};
ghost use Rattle.std.specs.Option.{option_to_list};
ghost use Rattle.std.specs.List.{list_all};
ghost use Rattle.std.specs.Str.{bytes_eq};
ghost use Rattle.shop_model.specs.Links.{are_different};
ghost use Rattle.audit_rows.specs.Shops.{is_among};
ghost use Rattle.audit_rows.specs.Parts.{is_staff_row};
ghost use Rattle.audit_rows.specs.Catalogues.{managers_from, is_named, is_shared_sized, is_single, is_good_catalogue};

use crate::links::is_staff_of;
use crate::{
    CheckedBranch, CheckedCast, CheckedCity, CheckedFilm, CheckedStaff, Keyed, OrderedBooks,
    are_distinct, is_among,
};
use shop_types::{NoMemory, T45, Token};
use std::alloc::Global;
use std::cmp::Ordering;

// ---- references

fn cities_have_countries(cities: &[CheckedCity], countries: usize) -> bool
    ensures { result ≡ list_all (λ row. is_among countries row.country) cities.now }
{
    cities
        .iter()
        .all(|row| is_among(countries, row.country.get()))
}

fn films_are_named(films: &[CheckedFilm], languages: usize, categories: usize) -> bool
    ensures { result ≡ list_all (λ row. is_among languages row.language && is_among categories row.category) films.now }
{
    films.iter().all(|row| {
        is_among(languages, row.language.get()) && is_among(categories, row.category.get())
    })
}

fn casts_are_named(casts: &[CheckedCast], films: usize, actors: usize) -> bool
    ensures { result ≡ list_all (λ row. is_among films row.film && is_among actors row.actor) casts.now }
{
    casts.iter().all(|row| is_among(films, row.film.get()) && is_among(actors, row.actor.get()))
}

fn branches_have_cities(branches: &[CheckedBranch], cities: usize) -> bool
    ensures { result ≡ list_all (λ row. is_among cities row.city) branches.now }
{
    branches.iter().all(|row| is_among(cities, row.city.get()))
}

fn staff_are_named(staff: &[CheckedStaff], branches: usize, cities: usize) -> bool
    ensures { result ≡ list_all (λ row. is_among branches row.branch && is_among cities row.city) staff.now }
{
    staff.iter().all(|row| is_among(branches, row.branch.get()) && is_among(cities, row.city.get()))
}

/// Returns whether the branch's manager, if there is one, is of the branch's staff.
fn is_managed(staff: &[CheckedStaff], branch: u32, row: &CheckedBranch) -> bool
    ensures { result ≡ list_all (is_staff_row branch staff.now) (option_to_list row.now.manager) }
{
    match row.manager {
        Some(number) => is_staff_of(staff, branch, number),
        None => true,
    }
}

/// Returns whether each branch's manager, if there is one, is of the branch's staff.
fn are_managed(staff: &[CheckedStaff], branches: &[CheckedBranch]) -> bool
    requires { length branches.now ≤ 1_000_003 }
    ensures { result ≡ managers_from 1 staff.now branches.now }
{
    let mut branch = 1;
    for row in branches {
        if !is_managed(staff, branch, row) {
            return false;
        }
        branch += 1;
    }
    true
}

/// Returns whether what shared rows name is there.
fn are_named(books: &OrderedBooks) -> bool
    requires { length books.now.branches.items ≤ 1_000_003 }
    ensures { result ≡ is_named books.now }
{
    let staff = books.staff.as_slice();
    let branches = books.branches.as_slice();
    let cities = books.cities.as_slice();
    cities_have_countries(cities, books.countries.len())
        && films_are_named(
            books.films.as_slice(),
            books.languages.len(),
            books.categories.len(),
        )
        && casts_are_named(books.casts.as_slice(), books.films.len(), books.actors)
        && branches_have_cities(branches, cities.len())
        && staff_are_named(staff, branches.len(), cities.len())
        && are_managed(staff, branches)
}

// ---- sizes

/// Returns whether there are no more shared rows than head office's kept commands allow.
fn are_few(books: &OrderedBooks) -> bool
    requires { length books.now.office_keys.items ≤ 1_000_000 }
    ensures { result ≡ is_shared_sized books.now }
{
    let most = books.office_keys.len() + 3;
    books.casts.len() <= most
        && books.countries.len() <= most
        && books.cities.len() <= most
        && books.languages.len() <= most
        && books.categories.len() <= most
        && books.actors <= most
        && books.films.len() <= most
        && books.branches.len() <= most
        && books.staff.len() <= most
}

// ---- doubles

/// A name, as a row whose key it is.
#[derive(Clone, Copy)]
struct NameKey<'a> {
    name: &'a str,
}

impl<'a> Keyed for NameKey<'a> {
    ghost key = { λ row. row.name.now };

    fn compare(&self, other: &NameKey<'a>) -> Ordering {
        self.name.cmp(other.name)
    }
}

fn name_keys<'a>(alloc: Global, names: &'a [T45]) -> Result<Vec<NameKey<'a>>, NoMemory>
    ensures { IfOk result (λ v. map (λ row. row.name.now) v.items ≡ names.now) }
{
    let mut keys = Vec::new(alloc);
    for name in names {
        let key = NameKey {
            name: name.as_str(),
        };
        if keys.push(key).is_err() {
            return Err(NoMemory);
        }
    }
    Ok(keys)
}

/// Returns whether no two names are the same.
fn names_differ(alloc: Global, names: &[T45]) -> Result<bool, NoMemory>
    ensures { IfOk result (λ is. is ≡ are_different bytes_eq names.now) }
{
    let mut keys = name_keys(alloc, names)?;
    Ok(are_distinct(&mut keys))
}

/// A token, as a row whose key it is.
#[derive(Clone, Copy, Drop)]
struct TokenKey {
    token: Token,
}

impl Keyed for TokenKey {
    ghost key = { λ row. row.token };

    fn compare(&self, other: &TokenKey) -> Ordering {
        self.token
            .as_bytes()
            .as_slice()
            .cmp(other.token.as_bytes().as_slice())
    }
}

fn token_keys(alloc: Global, branches: &[CheckedBranch]) -> Result<Vec<TokenKey>, NoMemory>
    ensures { IfOk result (λ v. map (λ row. row.token) v.items ≡ map (λ row. row.token) branches.now) }
{
    let mut keys = Vec::new(alloc);
    for row in branches {
        if keys.push(TokenKey { token: row.token }).is_err() {
            return Err(NoMemory);
        }
    }
    Ok(keys)
}

/// Returns whether no two branches have one token.
fn tokens_differ(alloc: Global, branches: &[CheckedBranch]) -> Result<bool, NoMemory>
    ensures { IfOk result (λ is. is
        ≡ are_different (λ earlier later. bytes_eq earlier.token later.token) branches.now) }
{
    let mut keys = token_keys(alloc, branches)?;
    Ok(are_distinct(&mut keys))
}

/// Returns whether no branch has head office's token.
fn tokens_are_theirs(branches: &[CheckedBranch], office_token: &Token) -> bool
    ensures { result ≡ list_all (λ row. not (bytes_eq row.token office_token.now)) branches.now }
{
    branches
        .iter()
        .all(|row| row.token.as_bytes() != office_token.as_bytes())
}

/// Returns whether the names and tokens that have to be different are different.
fn are_single(alloc: Global, books: &OrderedBooks) -> Result<bool, NoMemory>
    ensures { IfOk result (λ is. is ≡ is_single books.now) }
{
    if !names_differ(alloc, books.countries.as_slice())? {
        return Ok(false);
    }
    if !names_differ(alloc, books.languages.as_slice())? {
        return Ok(false);
    }
    if !names_differ(alloc, books.categories.as_slice())? {
        return Ok(false);
    }
    if !tokens_differ(alloc, books.branches.as_slice())? {
        return Ok(false);
    }
    Ok(tokens_are_theirs(books.branches.as_slice(), &books.office_token))
}

/// Returns whether shared rows are sound.
pub fn is_good_catalogue(alloc: Global, books: &OrderedBooks) -> Result<bool, NoMemory>
    ensures { IfOk result (λ is. is ≡ is_good_catalogue books.now) }
{
    if books.office_keys.len() > 1_000_000 || !are_few(books) || !are_named(books) {
        return Ok(false);
    }
    are_single(alloc, books)
}
