//! Builds the requests of looks and views.

ghost use Rattle.std.specs.Prelude.{◌≡◌, ◌++◌, true, None, IfOk};
ghost use Rattle.shop_model.specs.Values.{OneView};
ghost use Rattle.shop_model.specs.Machine.{Look};
ghost use Rattle.shop_types.specs.Seen.{seen_ask, seen_view, seen_request};
ghost use Rattle.till_requests.specs.Requests.{AsksBranch, SaysLook, get_text};

use crate::commands::NotBuilt;
use crate::same::{is_same_ask, is_same_view};
use crate::sole::sole_message;
use counter_routes::{Reading, Routes};
use shop_types::{Ask, BranchNo, Caller, Line, OfficeWords, Request, Token, Usage, View};
use std::alloc::{AllocError, Global};

/// A reader of head office's words that reads none: a counter has no such words.
struct NoWords;

impl OfficeWords for NoWords {
    ghost meaning = { λ _ _. None };

    fn read(&self, _words: &[String]) -> Result<Line, Usage> {
        Err(Usage::Memory)
    }
}

fn push(bytes: &mut Vec<u8>, text: &[u8]) -> Result<(), AllocError>
    ensures { IfOk result (λ _. bytes.new.items ≡ bytes.old.items ++ text.now) }
{
    bytes.extend_from_slice(text)
}

/// Returns a look's request for a connection of its own: the connection ends after the reply.
pub fn get_bytes(alloc: Global, token: &[u8], target: &[u8]) -> Result<Vec<u8>, AllocError>
    ensures { IfOk result (λ bytes. bytes.items ≡ get_text token.now target.now) }
{
    let mut bytes = Vec::from_slice(alloc, b"GET ")?;
    push(&mut bytes, target)?;
    push(&mut bytes, b" HTTP/1.1\r\nhost: till\r\ncounter-token: ")?;
    push(&mut bytes, token)?;
    push(&mut bytes, b"\r\nconnection: close\r\n\r\n")?;
    Ok(bytes)
}

/// Returns the path of a look. No contract here says what the path means: the request is read back later.
fn target_of(alloc: Global, ask: &Ask) -> Result<String, AllocError> {
    match *ask {
        Ask::Customer(number) => {
            let number = number.get();
            format!(in alloc; "/customer/{number}")
        }
        Ask::Film(film) => {
            let film = film.get();
            format!(in alloc; "/film/{film}")
        }
        Ask::InStock(copy) => {
            let copy = copy.get();
            format!(in alloc; "/in-stock/{copy}")
        }
        Ask::HeldBy(copy) => {
            let copy = copy.get();
            format!(in alloc; "/held-by/{copy}")
        }
        Ask::FilmInStock(film) => {
            let film = film.get();
            format!(in alloc; "/film-in-stock/{film}")
        }
        Ask::FilmNotInStock(film) => {
            let film = film.get();
            format!(in alloc; "/film-not-in-stock/{film}")
        }
        Ask::Balance { customer, at } => {
            let customer = customer.get();
            format!(in alloc; "/balance/{customer}/{at}")
        }
        Ask::Overdue(at) => format!(in alloc; "/overdue/{at}"),
        Ask::Rewards {
            at,
            purchases,
            cents,
        } => format!(in alloc; "/rewards/{at}/{purchases}/{cents}"),
        Ask::Arrivals => String::from_str(alloc, "/arrivals"),
        Ask::Sent => String::from_str(alloc, "/sent"),
    }
}

/// Returns the path of a view.
fn view_target(view: View) -> &'static str {
    match view {
        View::CustomerList => "/views/customer_list",
        View::StaffList => "/views/staff_list",
        View::FilmList => "/views/film_list",
        View::ActorInfo => "/views/actor_info",
        View::SalesByStore => "/views/sales_by_store",
        View::SalesByFilmCategory => "/views/sales_by_film_category",
    }
}

/// Returns what the bytes ask of a branch, if they are one message with that token for a connection of its own.
fn asked_in(
    alloc: Global,
    routes: &Routes,
    token: &Token,
    bytes: &[u8],
) -> Result<Request, NotBuilt>
    ensures { IfOk result (λ request. AsksBranch bytes.now token.now (seen_request request)) }
{
    let Some(message) = sole_message(token.as_bytes().as_slice(), bytes) else {
        return Err(NotBuilt::Other);
    };
    let Some(branch) = BranchNo::new(1) else {
        return Err(NotBuilt::Other);
    };
    match routes.read(alloc, &NoWords, &message, Caller::Branch(branch)) {
        Ok(Reading::Asked(request)) => Ok(request),
        Ok(Reading::Refused(_)) => Err(NotBuilt::Other),
        Err(_) => Err(NotBuilt::Memory),
    }
}

/// Returns true only if the request is that look.
fn is_look(request: &Request, ask: &Ask) -> bool
    ensures { result ≡ true → seen_request request.now ≡ Look (seen_ask ask.now) }
{
    match request {
        Request::Look(it) => is_same_ask(it, ask),
        Request::Do(_) | Request::View(_) => false,
        Request::Office(_) | Request::OfficeLook(_) => false,
    }
}

/// Returns true only if the request is that view.
fn is_view(request: &Request, view: View) -> bool
    ensures { result ≡ true → seen_request request.now ≡ Look (OneView (seen_view view)) }
{
    match request {
        Request::View(it) => is_same_view(*it, view),
        Request::Do(_) | Request::Look(_) => false,
        Request::Office(_) | Request::OfficeLook(_) => false,
    }
}

/// Returns true only if the bytes say that look.
fn say_look(
    alloc: Global,
    routes: &Routes,
    token: &Token,
    bytes: &[u8],
    ask: &Ask,
) -> Result<bool, NotBuilt>
    ensures { IfOk result (λ is. is ≡ true → SaysLook bytes.now token.now (seen_ask ask.now)) }
{
    let request = asked_in(alloc, routes, token, bytes)?;
    Ok(is_look(&request, ask))
}

/// Returns true only if the bytes say that view.
fn say_view(
    alloc: Global,
    routes: &Routes,
    token: &Token,
    bytes: &[u8],
    view: View,
) -> Result<bool, NotBuilt>
    ensures { IfOk result (λ is. is ≡ true → SaysLook bytes.now token.now (OneView (seen_view view))) }
{
    let request = asked_in(alloc, routes, token, bytes)?;
    Ok(is_view(&request, view))
}

/// Builds the request of a look: its whole bytes, for a connection of its own. The server's own readers read it back.
pub fn look_request(
    alloc: Global,
    routes: &Routes,
    token: &Token,
    ask: &Ask,
) -> Result<Vec<u8>, NotBuilt>
    ensures { IfOk result (λ bytes. SaysLook bytes.items token.now (seen_ask ask.now)) }
{
    let target = target_of(alloc, ask)?;
    let bytes = get_bytes(
        alloc,
        token.as_bytes().as_slice(),
        target.as_str().as_bytes(),
    )?;
    if !say_look(alloc, routes, token, bytes.as_slice(), ask)? {
        return Err(NotBuilt::Other);
    }
    Ok(bytes)
}

/// Builds the request of a view: its whole bytes, for a connection of its own. The server's own readers read it back.
pub fn view_request(
    alloc: Global,
    routes: &Routes,
    token: &Token,
    view: View,
) -> Result<Vec<u8>, NotBuilt>
    ensures { IfOk result (λ bytes. SaysLook bytes.items token.now (OneView (seen_view view))) }
{
    let target = view_target(view);
    let bytes = get_bytes(alloc, token.as_bytes().as_slice(), target.as_bytes())?;
    if !say_view(alloc, routes, token, bytes.as_slice(), view)? {
        return Err(NotBuilt::Other);
    }
    Ok(bytes)
}
