//! Makes the row of each new thing of head office, under its number.

ghost use Rattle.std.specs.Prelude.{◌≡◌};
ghost use Rattle.shop_types.specs.Seen.{seen_city, seen_actor, seen_film, seen_branch, seen_staff};
ghost use Rattle.shop_store.specs.New.{seen_city as seen_city_row, seen_actor as seen_actor_row, seen_film as seen_film_row, seen_branch as seen_branch_row, seen_staff as seen_staff_row};

use shop_store::puts::{NewActor, NewBranch, NewCity, NewFilm, NewStaff};
use shop_types::{
    Actor, ActorNo, Branch, BranchNo, City, CityNo, Film, FilmNo, Minutes, Staff, StaffNo,
};

/// Returns the row of a new city.
pub(crate) fn new_city(number: CityNo, city: &City) -> NewCity<'_>
    ensures row { seen_city_row result ≡ seen_city city.now }
    ensures number { result.number ≡ number }
{
    NewCity {
        number,
        name: city.name.as_str(),
        country: city.country,
    }
}

/// Returns the row of a new actor.
pub(crate) fn new_actor(number: ActorNo, actor: &Actor) -> NewActor<'_>
    ensures row { seen_actor_row result ≡ seen_actor actor.now }
    ensures number { result.number ≡ number }
{
    NewActor {
        number,
        first: actor.first.as_str(),
        last: actor.last.as_str(),
    }
}

fn minutes_of(minutes: Option<Minutes>) -> Option<u32>
    ensures { result ≡ minutes }
{
    match minutes {
        Some(minutes) => Some(minutes.get()),
        None => None,
    }
}

/// Returns the row of a new film, which isn't withdrawn.
pub(crate) fn new_film(number: FilmNo, film: &Film) -> NewFilm<'_>
    ensures row { seen_film_row result ≡ seen_film film.now }
    ensures number { result.number ≡ number }
{
    NewFilm {
        number,
        title: film.title.as_str(),
        description: film.description.as_str(),
        language: film.language,
        category: film.category,
        period: film.period.get(),
        rate: film.rate.get(),
        replacement: film.replacement.get(),
        minutes: minutes_of(film.minutes),
        rating: film.rating.text(),
        features: film.features.text(),
        withdrawn: false,
    }
}

/// Returns the row of a new branch, which has no manager.
pub(crate) fn new_branch(number: BranchNo, branch: &Branch) -> NewBranch<'_>
    ensures row { seen_branch_row result ≡ seen_branch branch.now }
    ensures number { result.number ≡ number }
{
    NewBranch {
        number,
        token: &branch.token,
        address: branch.address.as_str(),
        postal: branch.postal.as_str(),
        phone: branch.phone.as_str(),
        city: branch.city,
        manager: None,
    }
}

/// Returns the row of a new member of staff, who hasn't left.
pub(crate) fn new_staff(number: StaffNo, staff: &Staff) -> NewStaff<'_>
    ensures row { seen_staff_row result ≡ seen_staff staff.now }
    ensures number { result.number ≡ number }
{
    NewStaff {
        number,
        branch: staff.branch,
        first: staff.person.first.as_str(),
        last: staff.person.last.as_str(),
        address: staff.person.address.as_str(),
        postal: staff.person.postal.as_str(),
        phone: staff.person.phone.as_str(),
        city: staff.person.city,
        gone: false,
    }
}
