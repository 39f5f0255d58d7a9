//! Looks of a counter: of each its route, and the parts of its path, which say all of it.

ghost use Rattle.std.specs.Prelude.{◌≡◌, option_map};
ghost use Rattle.shop_types.specs.Seen.{seen_ask, seen_view};
ghost use Rattle.counter_routes.specs.Looks.{number_in, threshold_of, threshold_in, balance_in, overdue_in, rewards_in, look_in, view_of, view_in};

use crate::imports::moment;
use crate::paths::{Pattern, Route};
use http_messages::part;
use shop_types::{Ask, RowNumber, View};

/// A number from 1 that isn't the number of a table's row.
type NumberAlone = RowNumber<0>;

/// Reads the number of a row from the path's part after its second slash.
fn number_of<const KIND: u8>(target: &[u8]) -> Option<RowNumber<KIND>>
    ensures { result ≡ number_in target.now }
{
    RowNumber::read(part(target, 2)?)
}

/// Reads the number that the bytes write, which may be 0.
fn threshold_written(digits: &[u8]) -> Option<u32>
    ensures { result ≡ threshold_of digits.now }
{
    if digits == b"0".as_slice() {
        return Some(0);
    }
    let number = NumberAlone::read(digits)?;
    Some(number.get())
}

/// Reads the threshold from the path's part after its first `n` slashes.
fn threshold(target: &[u8], n: usize) -> Option<u32>
    ensures { result ≡ threshold_in target.now n }
{
    threshold_written(part(target, n)?)
}

/// Returns the look at a customer's balance that a path writes.
#[tactic(auto, unfolding(crate::specs::Looks::balance_in))]
fn balance_ask(target: &[u8]) -> Option<Ask>
    ensures { option_map seen_ask result ≡ balance_in target.now }
{
    Some(Ask::Balance {
        customer: number_of(target)?,
        at: moment(target, 3)?,
    })
}

/// Returns the look at the overdue rentals that a path writes.
#[tactic(auto, unfolding(crate::specs::Looks::overdue_in))]
fn overdue_ask(target: &[u8]) -> Option<Ask>
    ensures { option_map seen_ask result ≡ overdue_in target.now }
{
    Some(Ask::Overdue(moment(target, 2)?))
}

/// Returns the look at the rewards that a path writes.
#[tactic(auto, unfolding(crate::specs::Looks::rewards_in))]
fn rewards_ask(target: &[u8]) -> Option<Ask>
    ensures { option_map seen_ask result ≡ rewards_in target.now }
{
    Some(Ask::Rewards {
        at: moment(target, 2)?,
        purchases: threshold(target, 3)?,
        cents: threshold(target, 4)?,
    })
}

/// What a look's path asks.
#[derive(Clone, Copy)]
pub(crate) enum LookForm {
    Customer,
    Film,
    InStock,
    HeldBy,
    FilmInStock,
    FilmNotInStock,
    Balance,
    Overdue,
    Rewards,
    Arrivals,
    Sent,
}

/// The routes of looks. All views have one route, and stand there by their names.
pub(crate) const GET_ROUTES: [Pattern; 12] = [
    Pattern("/customer/{n}", Route::Look(LookForm::Customer)),
    Pattern("/film/{n}", Route::Look(LookForm::Film)),
    Pattern("/in-stock/{copy}", Route::Look(LookForm::InStock)),
    Pattern("/held-by/{copy}", Route::Look(LookForm::HeldBy)),
    Pattern("/film-in-stock/{film}", Route::Look(LookForm::FilmInStock)),
    Pattern(
        "/film-not-in-stock/{film}",
        Route::Look(LookForm::FilmNotInStock),
    ),
    Pattern("/balance/{customer}/{at}", Route::Look(LookForm::Balance)),
    Pattern("/overdue/{at}", Route::Look(LookForm::Overdue)),
    Pattern(
        "/rewards/{at}/{purchases}/{cents}",
        Route::Look(LookForm::Rewards),
    ),
    Pattern("/arrivals", Route::Look(LookForm::Arrivals)),
    Pattern("/sent", Route::Look(LookForm::Sent)),
    Pattern("/views/{name}", Route::View),
];

/// Returns the look of the form that a path writes.
pub(crate) fn look_asked(form: LookForm, target: &[u8]) -> Option<Ask>
    ensures { option_map seen_ask result ≡ look_in form target.now }
{
    match form {
        LookForm::Customer => Some(Ask::Customer(number_of(target)?)),
        LookForm::Film => Some(Ask::Film(number_of(target)?)),
        LookForm::InStock => Some(Ask::InStock(number_of(target)?)),
        LookForm::HeldBy => Some(Ask::HeldBy(number_of(target)?)),
        LookForm::FilmInStock => Some(Ask::FilmInStock(number_of(target)?)),
        LookForm::FilmNotInStock => Some(Ask::FilmNotInStock(number_of(target)?)),
        LookForm::Balance => balance_ask(target),
        LookForm::Overdue => overdue_ask(target),
        LookForm::Rewards => rewards_ask(target),
        LookForm::Arrivals => Some(Ask::Arrivals),
        LookForm::Sent => Some(Ask::Sent),
    }
}

/// Returns the view of that name.
fn view_named(name: &[u8]) -> Option<View>
    ensures { option_map seen_view result ≡ view_of name.now }
{
    if name == b"customer_list".as_slice() {
        return Some(View::CustomerList);
    }
    if name == b"staff_list".as_slice() {
        return Some(View::StaffList);
    }
    if name == b"film_list".as_slice() {
        return Some(View::FilmList);
    }
    if name == b"actor_info".as_slice() {
        return Some(View::ActorInfo);
    }
    if name == b"sales_by_store".as_slice() {
        return Some(View::SalesByStore);
    }
    if name == b"sales_by_film_category".as_slice() {
        return Some(View::SalesByFilmCategory);
    }
    None
}

/// Returns the view that a path names.
pub(crate) fn view_asked(target: &[u8]) -> Option<View>
    ensures { option_map seen_view result ≡ view_in target.now }
{
    view_named(part(target, 2)?)
}
