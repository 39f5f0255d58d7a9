//! The copies of films that are out, and who has them.

ghost use Rattle.std.specs.Prelude.{◌≡◌, ◌++◌, ◌∷◌, [], IfNone, IfSome, Some};
ghost use Rattle.std.specs.List.{All};
ghost use Rattle.serde_json.specs.View.{view};
ghost use Rattle.shop_types.specs.Seen.{seen_ask};
ghost use Rattle.till_client.specs.Replies.{seen_answer};
ghost use Rattle.till_cashier.specs.Asking.{IsAnswered, IsLookedUp};
ghost use Rattle.till_cashier.specs.Late.{IsCustomerList, IsOutOf};

use crate::caches::Shelf;
use crate::clock::WallClock;
use crate::desk::Desk;
use crate::lists::{List, body_of, fetched};
use crate::members::{number_at, row_with, text_at};
use serde_json::Value;
use shop_types::{Ask, CopyNo, CustomerNo, FilmNo};
use till_client::Answer;
use till_requests::look_request;
use till_shows::holder;
use till_work::Server;

/// For how many seconds the server is asked.
const SPAN: u64 = 2;

/// A copy that is out, the title of its film, and its customer.
#[derive(Drop)]
pub(crate) struct Out {
    pub(crate) title: String,
    pub(crate) copy: CopyNo,
    pub(crate) customer: CustomerNo,
    /// The customer's first name and last name.
    pub(crate) name: String,
    pub(crate) phone: String,
}

/// The lists of films and of customers.
#[derive(Drop)]
struct Lists {
    films: Value,
    customers: Value,
}

/// Returns the list of films, from the shelf or from the server.
fn films_of<K: WallClock, V: Server, L: Shelf>(desk: &Desk<'_, K, V, L>) -> Option<Value> {
    let body = body_of(desk, List::Films)?;
    Value::from_slice(desk.alloc, body.as_slice()).ok()
}

/// Returns the list of customers, from the server. A list on the shelf may be any text.
fn customers_of<K: WallClock, V: Server, L: Shelf>(desk: &Desk<'_, K, V, L>) -> Option<Value>
    ensures { IfSome result (λ list. IsCustomerList (IsLookedUp
        (IsAnswered (V.opens desk.now.server.now) V.Reader.remaining V.Writer.contents)
        desk.now.settings.now.token) (view list)) }
{
    let Ok(answer) = fetched(desk, List::Customers) else {
        return None;
    };
    if answer.status != 200 {
        return None;
    }
    match Value::from_slice(desk.alloc, answer.body.as_slice()) {
        Ok(list) => Some(list),
        Err(_) => None,
    }
}

/// Returns both lists.
fn read_lists<K: WallClock, V: Server, L: Shelf>(desk: &Desk<'_, K, V, L>) -> Option<Lists>
    ensures { IfSome result (λ lists. IsCustomerList (IsLookedUp
        (IsAnswered (V.opens desk.now.server.now) V.Reader.remaining V.Writer.contents)
        desk.now.settings.now.token) (view lists.customers)) }
{
    Some(Lists {
        films: films_of(desk)?,
        customers: customers_of(desk)?,
    })
}

/// Asks the server once, and returns its answer if that isn't a refusal.
fn asked<K: WallClock, V: Server, L: Shelf>(desk: &Desk<'_, K, V, L>, ask: &Ask) -> Option<Answer>
    ensures asked { IfSome result (λ answer. IsLookedUp
        (IsAnswered (V.opens desk.now.server.now) V.Reader.remaining V.Writer.contents)
        desk.now.settings.now.token (seen_ask ask.now) (seen_answer answer)) }
    ensures accepted { IfSome result (λ answer. answer.status ≡ 200) }
{
    let request = look_request(desk.alloc, desk.routes, &desk.settings.token, ask).ok()?;
    let answer = desk.ask_once(request.as_slice()).ok()?;
    if answer.status == 200 {
        Some(answer)
    } else {
        None
    }
}

/// Returns who has the copy, by the server and the list of customers.
fn out_of<K: WallClock, V: Server, L: Shelf>(
    desk: &Desk<'_, K, V, L>,
    lists: &Lists,
    title: &str,
    copy: CopyNo,
) -> Option<Out>
    ensures { IsCustomerList (IsLookedUp
        (IsAnswered (V.opens desk.now.server.now) V.Reader.remaining V.Writer.contents)
        desk.now.settings.now.token) (view lists.now.customers)
        → IfSome result (IsOutOf (IsLookedUp
        (IsAnswered (V.opens desk.now.server.now) V.Reader.remaining V.Writer.contents)
        desk.now.settings.now.token)) }
{
    let answer = asked(desk, &Ask::HeldBy(copy))?;
    let customer = holder(desk.alloc, answer.body.as_slice()).ok()??;
    let row = row_with(&lists.customers, "id", customer.get())?;
    Some(Out {
        title: String::from_str(desk.alloc, title).ok()?,
        copy,
        customer,
        name: text_at(desk.alloc, row, "name")?,
        phone: text_at(desk.alloc, row, "phone")?,
    })
}

/// Adds a copy after the others. If there is no memory, the others stay.
fn add_out(outs: &mut Vec<Out>, out: Out) -> Option<()>
    ensures added { IfSome result (λ _. outs.new.items ≡ outs.old.items ++ out ∷ []) }
    ensures same { IfNone result (outs.new.items ≡ outs.old.items) }
{
    match outs.push(out) {
        Ok(()) => Some(()),
        Err(_) => None,
    }
}

/// Adds copies after the others. If there is no memory, the others stay.
fn add_all(outs: &mut Vec<Out>, more: Vec<Out>) -> Option<()>
    ensures added { IfSome result (λ _. outs.new.items ≡ outs.old.items ++ more.items) }
    ensures same { IfNone result (outs.new.items ≡ outs.old.items) }
{
    let mut more = more;
    match outs.append(&mut more) {
        Ok(()) => Some(()),
        Err(_) => None,
    }
}

/// Adds the film's copies that are out.
fn add_outs<K: WallClock, V: Server, L: Shelf>(
    desk: &Desk<'_, K, V, L>,
    lists: &Lists,
    title: &str,
    film: FilmNo,
    outs: &mut Vec<Out>,
) -> Option<()>
    ensures { IsCustomerList (IsLookedUp
        (IsAnswered (V.opens desk.now.server.now) V.Reader.remaining V.Writer.contents)
        desk.now.settings.now.token) (view lists.now.customers)
        → All (IsOutOf (IsLookedUp
        (IsAnswered (V.opens desk.now.server.now) V.Reader.remaining V.Writer.contents)
        desk.now.settings.now.token)) outs.old.items
        → All (IsOutOf (IsLookedUp
        (IsAnswered (V.opens desk.now.server.now) V.Reader.remaining V.Writer.contents)
        desk.now.settings.now.token)) outs.new.items }
{
    let answer = asked(desk, &Ask::FilmNotInStock(film))?;
    let body = Value::from_slice(desk.alloc, answer.body.as_slice()).ok()?;
    for number in body.get("copies")?.as_array()?.as_slice() {
        let copy = CopyNo::new(u32::try_from(number.as_u64()?).ok()?)?;
        let out = out_of(desk, lists, title, copy)?;
        add_out(outs, out)?;
    }
    Some(())
}

/// Adds the film's copies that are out, if the film has that title.
fn add_film<K: WallClock, V: Server, L: Shelf>(
    desk: &Desk<'_, K, V, L>,
    lists: &Lists,
    title: &str,
    film: &Value,
    outs: &mut Vec<Out>,
) -> Option<()>
    ensures { IsCustomerList (IsLookedUp
        (IsAnswered (V.opens desk.now.server.now) V.Reader.remaining V.Writer.contents)
        desk.now.settings.now.token) (view lists.now.customers)
        → All (IsOutOf (IsLookedUp
        (IsAnswered (V.opens desk.now.server.now) V.Reader.remaining V.Writer.contents)
        desk.now.settings.now.token)) outs.old.items
        → All (IsOutOf (IsLookedUp
        (IsAnswered (V.opens desk.now.server.now) V.Reader.remaining V.Writer.contents)
        desk.now.settings.now.token)) outs.new.items }
{
    if film.get("title")?.as_str()? != title {
        return Some(());
    }
    let film = FilmNo::new(number_at(film, "film")?)?;
    add_outs(desk, lists, title, film, outs)
}

/// Returns the copies that are out of all films with that title. Returns none if the server or a list doesn't say all.
fn outs_of_title<K: WallClock, V: Server, L: Shelf>(
    desk: &Desk<'_, K, V, L>,
    lists: &Lists,
    title: &str,
) -> Option<Vec<Out>>
    ensures { IsCustomerList (IsLookedUp
        (IsAnswered (V.opens desk.now.server.now) V.Reader.remaining V.Writer.contents)
        desk.now.settings.now.token) (view lists.now.customers)
        → IfSome result (λ outs. All (IsOutOf (IsLookedUp
        (IsAnswered (V.opens desk.now.server.now) V.Reader.remaining V.Writer.contents)
        desk.now.settings.now.token)) outs.items) }
{
    let mut outs = Vec::new(desk.alloc);
    for film in lists.films.as_array()?.as_slice() {
        add_film(desk, lists, title, film, &mut outs)?;
    }
    Some(outs)
}

/// Adds the copies that are out of the films with that title, if the server and the lists say all.
fn add_title<K: WallClock, V: Server, L: Shelf>(
    desk: &Desk<'_, K, V, L>,
    lists: &Lists,
    title: &str,
    outs: &mut Vec<Out>,
) -> Option<()>
    ensures { IsCustomerList (IsLookedUp
        (IsAnswered (V.opens desk.now.server.now) V.Reader.remaining V.Writer.contents)
        desk.now.settings.now.token) (view lists.now.customers)
        → All (IsOutOf (IsLookedUp
        (IsAnswered (V.opens desk.now.server.now) V.Reader.remaining V.Writer.contents)
        desk.now.settings.now.token)) outs.old.items
        → All (IsOutOf (IsLookedUp
        (IsAnswered (V.opens desk.now.server.now) V.Reader.remaining V.Writer.contents)
        desk.now.settings.now.token)) outs.new.items }
{
    match outs_of_title(desk, lists, title) {
        Some(more) => add_all(outs, more),
        None => Some(()),
    }
}

/// Tests whether the server was asked for long enough.
fn is_over<K: WallClock, V: Server, L: Shelf>(desk: &Desk<'_, K, V, L>, begun: u64) -> bool {
    match desk.seconds() {
        Ok(now) => now < begun || now - begun >= SPAN,
        Err(_) => true,
    }
}

/// Adds the copies that are out of the films with these titles, title by title, for two seconds.
fn add_titles<K: WallClock, V: Server, L: Shelf>(
    desk: &Desk<'_, K, V, L>,
    titles: &[&str],
    outs: &mut Vec<Out>,
) -> Option<()>
    ensures { All (IsOutOf (IsLookedUp
        (IsAnswered (V.opens desk.now.server.now) V.Reader.remaining V.Writer.contents)
        desk.now.settings.now.token)) outs.old.items
        → All (IsOutOf (IsLookedUp
        (IsAnswered (V.opens desk.now.server.now) V.Reader.remaining V.Writer.contents)
        desk.now.settings.now.token)) outs.new.items }
{
    let begun = desk.seconds().ok()?;
    let lists = read_lists(desk)?;
    for title in titles {
        if is_over(desk, begun) {
            return Some(());
        }
        add_title(desk, &lists, *title, outs)?;
    }
    Some(())
}

/// Returns the copies that are out of the films with these titles. The server is asked for two seconds. If it doesn't say
/// all of a title, the title has no copy here.
pub(crate) fn outs_of<K: WallClock, V: Server, L: Shelf>(
    desk: &Desk<'_, K, V, L>,
    titles: &[&str],
) -> Vec<Out>
    ensures { All (IsOutOf (IsLookedUp
        (IsAnswered (V.opens desk.now.server.now) V.Reader.remaining V.Writer.contents)
        desk.now.settings.now.token)) result.items }
{
    let mut outs = Vec::new(desk.alloc);
    let _ = add_titles(desk, titles, &mut outs);
    outs
}
