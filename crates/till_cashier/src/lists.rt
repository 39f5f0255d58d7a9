//! The branch's customers and the films, from lists that are kept for ten minutes.

ghost use Rattle.std.specs.Prelude.{◌≡◌, Some, IfOk, IfSome, string_bytes};
ghost use Rattle.shop_model.specs.Values.{OneView};
ghost use Rattle.shop_types.specs.Seen.{seen_view};
ghost use Rattle.till_client.specs.Replies.{seen_answer};
ghost use Rattle.till_cashier.specs.Asking.{IsAnswered, IsLookedUp};
ghost use Rattle.till_cashier.specs.Looking.{IsListOf, IsTitled, found_in, none_text, view_of};
ghost use Rattle.till_cashier.specs.Saying.{IsListed};

use crate::caches::Shelf;
use crate::clock::WallClock;
use crate::desk::Desk;
use crate::fault::TillFault;
use shop_types::{CustomerNo, FilmNo, View};
use std::alloc::Global;
use till_client::Answer;
use till_requests::view_request;
use till_shows::{
    NotShown, Table, customer_named, customers_with, film_named, films_with, refusal_in,
};
use till_work::Server;

/// For how many seconds a list is kept.
const KEPT: u64 = 600;

/// A list that is kept.
#[derive(Clone, Copy)]
pub(crate) enum List {
    /// The branch's customers.
    Customers,
    /// All films.
    Films,
}

impl List {
    /// Returns the list's name on the shelf.
    pub(crate) fn name(self) -> &'static str {
        match self {
            List::Customers => "customers",
            List::Films => "films",
        }
    }

    /// Returns what is said if nothing has what is looked for.
    pub(crate) fn none(self) -> &'static str
        ensures { result.now ≡ none_text self }
    {
        match self {
            List::Customers => "no customer has that in name or phone",
            List::Films => "no film has that in its title",
        }
    }

    fn view(self) -> View
        ensures { seen_view result ≡ view_of self }
    {
        match self {
            List::Customers => View::CustomerList,
            List::Films => View::FilmList,
        }
    }

    /// Returns the rows of the list's body that have the part in them.
    fn with(self, alloc: Global, body: &[u8], part: &str) -> Result<Table, NotShown>
        ensures { IfOk result (λ table. found_in self part.now body.now ≡ Some table) }
    {
        match self {
            List::Customers => customers_with(alloc, body, part),
            List::Films => films_with(alloc, body, part),
        }
    }
}

/// A list from the shelf, and for how many seconds it has been there.
#[derive(Drop)]
struct Kept {
    body: Vec<u8>,
    seconds: u64,
}

/// Returns the list, if the shelf has one that isn't old.
fn list_kept<K: WallClock, V: Server, L: Shelf>(
    desk: &Desk<'_, K, V, L>,
    list: List,
) -> Option<Kept> {
    let (second, body) = desk.shelf.take(desk.alloc, list.name())?;
    let seconds = desk.seconds().ok()?.checked_sub(second)?;
    if seconds < KEPT {
        Some(Kept { body, seconds })
    } else {
        None
    }
}

/// Asks the server for the list, and puts it on the shelf. The reply may be a refusal.
pub(crate) fn fetched<K: WallClock, V: Server, L: Shelf>(
    desk: &Desk<'_, K, V, L>,
    list: List,
) -> Result<Answer, TillFault>
    ensures { IfOk result (λ answer. IsLookedUp
        (IsAnswered (V.opens desk.now.server.now) V.Reader.remaining V.Writer.contents)
        desk.now.settings.now.token (OneView (view_of list)) (seen_answer answer)) }
{
    let request = view_request(desk.alloc, desk.routes, &desk.settings.token, list.view())?;
    let answer = desk.ask(request.as_slice())?;
    if answer.status == 200 {
        if let Ok(now) = desk.seconds() {
            desk.shelf
                .put(desk.alloc, list.name(), now, answer.body.as_slice());
        }
    }
    Ok(answer)
}

/// Returns the list's body, from the shelf or from the server.
pub(crate) fn body_of<K: WallClock, V: Server, L: Shelf>(
    desk: &Desk<'_, K, V, L>,
    list: List,
) -> Option<Vec<u8>> {
    if let Some(kept) = list_kept(desk, list) {
        return Some(kept.body);
    }
    let answer = fetched(desk, list).ok()?;
    if answer.status == 200 {
        Some(answer.body)
    } else {
        None
    }
}

/// A list, its rows that were looked for, and how many whole minutes ago the server gave it. If the list was refused,
/// there is no table.
#[derive(Drop)]
pub(crate) struct Picked {
    pub(crate) answer: Answer,
    pub(crate) table: Option<Table>,
    pub(crate) minutes: u64,
}

/// Picks the rows of the list in which the part is found.
fn pick(alloc: Global, list: List, answer: Answer, part: &str) -> Result<Picked, TillFault>
    ensures answer { IfOk result (λ it. it.answer ≡ answer) }
    ensures rows { IfOk result (λ it. IfSome it.table (λ table. found_in list part.now it.answer.body.items
        ≡ Some table)) }
{
    let body = answer.body.as_slice();
    let table = match refusal_in(answer.status, body) {
        Some(_) => None,
        None => Some(list.with(alloc, body, part)?),
    };
    Ok(Picked {
        answer,
        table,
        minutes: 0,
    })
}

/// Returns the rows of a list that have the part in them. If the kept list has none, a new one is asked for.
pub(crate) fn found<K: WallClock, V: Server, L: Shelf>(
    desk: &Desk<'_, K, V, L>,
    list: List,
    part: &str,
) -> Result<Picked, TillFault>
    ensures listed { IfOk result (λ it. IsListOf (IsLookedUp
        (IsAnswered (V.opens desk.now.server.now) V.Reader.remaining V.Writer.contents)
        desk.now.settings.now.token) list (seen_answer it.answer)) }
    ensures rows { IfOk result (λ it. IfSome it.table (λ table. found_in list part.now it.answer.body.items
        ≡ Some table)) }
{
    if let Some(Kept { body, seconds }) = list_kept(desk, list) {
        if let Ok(table) = list.with(desk.alloc, body.as_slice(), part) {
            if !table.is_empty() {
                let answer = Answer { status: 200, body };
                return Ok(Picked {
                    answer,
                    table: Some(table),
                    minutes: seconds / 60,
                });
            }
        }
    }
    let answer = fetched(desk, list)?;
    pick(desk.alloc, list, answer, part)
}

/// Returns the customer's name from the kept list. Nothing is asked for.
pub(crate) fn name_if_known<K: WallClock, V: Server, L: Shelf>(
    desk: &Desk<'_, K, V, L>,
    customer: CustomerNo,
) -> Option<String>
    ensures { IfSome result (λ name. IsListed customer (string_bytes name)) }
{
    let list = list_kept(desk, List::Customers)?;
    customer_named(desk.alloc, list.body.as_slice(), customer).ok()?
}

/// Returns the customer's name. If the kept list lacks it, a new list is asked for. Returns none if the list is
/// refused.
pub(crate) fn name_of<K: WallClock, V: Server, L: Shelf>(
    desk: &Desk<'_, K, V, L>,
    customer: CustomerNo,
) -> Result<Option<String>, TillFault>
    ensures { IfOk result (λ name. IfSome name (λ name. IsListed customer (string_bytes name))) }
{
    if let Some(name) = name_if_known(desk, customer) {
        return Ok(Some(name));
    }
    let list = fetched(desk, List::Customers)?;
    if list.status != 200 {
        return Ok(None);
    }
    Ok(customer_named(desk.alloc, list.body.as_slice(), customer)?)
}

/// Returns the film's title. If the kept list lacks it, a new list is asked for. Returns none if the list is refused.
pub(crate) fn title_of<K: WallClock, V: Server, L: Shelf>(
    desk: &Desk<'_, K, V, L>,
    film: FilmNo,
) -> Result<Option<String>, TillFault>
    ensures { IfOk result (λ title. IfSome title (λ title. IsTitled film (string_bytes title))) }
{
    if let Some(list) = list_kept(desk, List::Films) {
        if let Ok(Some(title)) = film_named(desk.alloc, list.body.as_slice(), film) {
            return Ok(Some(title));
        }
    }
    let list = fetched(desk, List::Films)?;
    if list.status != 200 {
        return Ok(None);
    }
    Ok(film_named(desk.alloc, list.body.as_slice(), film)?)
}
