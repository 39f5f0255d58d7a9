//! Compares two of the shop's values.

ghost use Rattle.std.specs.Prelude.{◌≡◌, true};
ghost use Rattle.shop_types.specs.Seen.{seen_act, seen_ask, seen_person, seen_view};

use shop_types::{Act, Ask, Numbers, Person, View};

fn is_same_person(one: &Person, two: &Person) -> bool
    ensures { result ≡ true → seen_person one.now ≡ seen_person two.now }
{
    one.first == two.first
        && one.last == two.last
        && one.address == two.address
        && one.postal == two.postal
        && one.phone == two.phone
        && one.city == two.city
}

fn is_same_list<const KIND: u8>(one: &Numbers<KIND>, two: &Numbers<KIND>) -> bool
    ensures { result ≡ true → one.now ≡ two.now }
{
    one.as_slice() == two.as_slice()
}

/// Returns true only if both acts do the same.
pub fn is_same_act(one: &Act, two: &Act) -> bool
    ensures { result ≡ true → seen_act one.now ≡ seen_act two.now }
{
    match (one, two) {
        (Act::Customer(one), Act::Customer(two)) => is_same_person(&one.person, &two.person),
        (
            Act::Active { customer, active },
            Act::Active {
                customer: other,
                active: flag,
            },
        ) => customer == other && active == flag,
        (
            Act::Rent { customer, copy },
            Act::Rent {
                customer: other,
                copy: second,
            },
        ) => customer == other && copy == second,
        (Act::TakeBack(one), Act::TakeBack(two)) => one == two,
        (
            Act::Pay {
                customer,
                rental,
                amount,
            },
            Act::Pay {
                customer: other,
                rental: second,
                amount: cents,
            },
        ) => customer == other && rental == second && amount.get() == cents.get(),
        (
            Act::Import { lot, file },
            Act::Import {
                lot: other,
                file: second,
            },
        ) => lot == other && file.as_slice() == second.as_slice(),
        (
            Act::Dispatch { to, copies },
            Act::Dispatch {
                to: other,
                copies: second,
            },
        ) => to == other && is_same_list(copies, second),
        (
            Act::Receive {
                from,
                number,
                missing,
            },
            Act::Receive {
                from: other,
                number: second,
                missing: lines,
            },
        ) => from == other && number == second && is_same_list(missing, lines),
        (Act::Scrap(one), Act::Scrap(two)) => one == two,
        (Act::Customer(_), _)
        | (Act::Active { .. }, _)
        | (Act::Rent { .. }, _)
        | (Act::TakeBack(_), _)
        | (Act::Pay { .. }, _)
        | (Act::Import { .. }, _)
        | (Act::Dispatch { .. }, _)
        | (Act::Receive { .. }, _)
        | (Act::Scrap(_), _) => false,
    }
}

/// Returns true only if both ask for the same look.
pub(crate) fn is_same_ask(one: &Ask, two: &Ask) -> bool
    ensures { result ≡ true → seen_ask one.now ≡ seen_ask two.now }
{
    match (one, two) {
        (Ask::Customer(one), Ask::Customer(two)) => one == two,
        (Ask::Film(one), Ask::Film(two)) => one == two,
        (Ask::InStock(one), Ask::InStock(two)) => one == two,
        (Ask::HeldBy(one), Ask::HeldBy(two)) => one == two,
        (Ask::FilmInStock(one), Ask::FilmInStock(two)) => one == two,
        (Ask::FilmNotInStock(one), Ask::FilmNotInStock(two)) => one == two,
        (
            Ask::Balance { customer, at },
            Ask::Balance {
                customer: other,
                at: moment,
            },
        ) => customer == other && at == moment,
        (Ask::Overdue(one), Ask::Overdue(two)) => one == two,
        (
            Ask::Rewards {
                at,
                purchases,
                cents,
            },
            Ask::Rewards {
                at: moment,
                purchases: count,
                cents: sum,
            },
        ) => at == moment && purchases == count && cents == sum,
        (Ask::Arrivals, Ask::Arrivals) => true,
        (Ask::Sent, Ask::Sent) => true,
        (Ask::Customer(_), _)
        | (Ask::Film(_), _)
        | (Ask::InStock(_), _)
        | (Ask::HeldBy(_), _)
        | (Ask::FilmInStock(_), _)
        | (Ask::FilmNotInStock(_), _)
        | (Ask::Balance { .. }, _)
        | (Ask::Overdue(_), _)
        | (Ask::Rewards { .. }, _)
        | (Ask::Arrivals, _)
        | (Ask::Sent, _) => false,
    }
}

/// Returns true only if both are the same view.
pub(crate) fn is_same_view(one: View, two: View) -> bool
    ensures { result ≡ true → seen_view one ≡ seen_view two }
{
    match (one, two) {
        (View::CustomerList, View::CustomerList) => true,
        (View::StaffList, View::StaffList) => true,
        (View::FilmList, View::FilmList) => true,
        (View::ActorInfo, View::ActorInfo) => true,
        (View::SalesByStore, View::SalesByStore) => true,
        (View::SalesByFilmCategory, View::SalesByFilmCategory) => true,
        (View::CustomerList, _)
        | (View::StaffList, _)
        | (View::FilmList, _)
        | (View::ActorInfo, _)
        | (View::SalesByStore, _)
        | (View::SalesByFilmCategory, _) => false,
    }
}
