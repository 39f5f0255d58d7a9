//! Slips: what a customer gets on paper after an accepted rent, return or payment. A slip is a courtesy. The book is the
//! truth, and the word `last` shows it.

ghost use Rattle.std.specs.Prelude.{◌≡◌, IfOk, IfSome, string_bytes};
ghost use Rattle.shop_types.specs.Seen.{seen_act};
ghost use Rattle.till_cashier.specs.Following.{debtor_of};
ghost use Rattle.till_cashier.specs.Showing.{IsLastSlip, SaysSlip, slip_or_none, unread_text};

use crate::caches::Shelf;
use crate::clock::WallClock;
use crate::desk::Desk;
use crate::fault::TillFault;
use crate::said::Said;
use crate::sheet::{Rented, branch_of};
use shop_types::{Act, CustomerNo, Moment};
use std::alloc::Global;
use till_client::Answer;
use till_shows::{Slip, SlipKind, last_slip, owed_cents, rental_in, slip_text};
use till_work::Server;

/// The name of the file on the shelf.
const NAME: &str = "slips";

/// What a slip says of an accepted command, besides who gave it and which film it was.
#[derive(Drop)]
pub(crate) struct Slipped {
    kind: SlipKind,
    /// The command's moment.
    at: Option<Moment>,
    paid: Option<u64>,
    owed: Option<i64>,
    rental: Option<u64>,
}

/// Returns what an act is on a slip, and none if a customer gets no slip of it.
fn kind_of(act: &Act) -> Option<SlipKind> {
    match act {
        Act::Rent { .. } => Some(SlipKind::Rent),
        Act::TakeBack(_) => Some(SlipKind::Return),
        Act::Pay { .. } => Some(SlipKind::Payment),
        Act::Customer(_) | Act::Active { .. } | Act::Import { .. } => None,
        Act::Dispatch { .. } | Act::Receive { .. } | Act::Scrap(_) => None,
    }
}

/// Returns whose debt is on an act's slip. `renter` is the customer of a return's rental, if the till knows.
pub(crate) fn debtor_of(act: &Act, renter: &Option<CustomerNo>) -> Option<CustomerNo>
    ensures { result ≡ debtor_of (seen_act act.now) renter.now }
{
    match act {
        Act::Rent { customer, .. } | Act::Pay { customer, .. } => Some(*customer),
        Act::TakeBack(_) => *renter,
        Act::Customer(_) | Act::Active { .. } | Act::Import { .. } => None,
        Act::Dispatch { .. } | Act::Receive { .. } | Act::Scrap(_) => None,
    }
}

/// Returns the number of the rental that an act is about, if there is one: a rent's is in its reply.
fn rental_of(alloc: Global, act: &Act, answer: &Answer) -> Option<u64> {
    match act {
        Act::Rent { .. } => rental_in(alloc, answer.body.as_slice()).ok(),
        Act::TakeBack(rental) => Some(u64::from(rental.get())),
        Act::Pay { rental, .. } => match rental {
            Some(rental) => Some(u64::from(rental.get())),
            None => None,
        },
        Act::Customer(_) | Act::Active { .. } | Act::Import { .. } => None,
        Act::Dispatch { .. } | Act::Receive { .. } | Act::Scrap(_) => None,
    }
}

/// Returns a payment's cents, and none of another act.
fn paid_of(act: &Act) -> Option<u64> {
    match act {
        Act::Pay { amount, .. } => Some(u64::from(amount.get())),
        Act::Customer(_) | Act::Active { .. } | Act::Rent { .. } | Act::TakeBack(_) => None,
        Act::Import { .. } | Act::Dispatch { .. } | Act::Receive { .. } | Act::Scrap(_) => None,
    }
}

/// Returns the cents that the customer owes, if the server said so.
fn owed_of(alloc: Global, balance: &Option<Answer>) -> Option<i64> {
    match balance {
        Some(answer) => owed_cents(alloc, answer.body.as_slice()).ok(),
        None => None,
    }
}

/// Returns what the slip of an accepted command says, if a customer gets one of it. `answer` is the reply to the
/// command, and `balance` the reply to the question what the customer owes.
pub(crate) fn slip_of(
    alloc: Global,
    act: &Act,
    answer: &Answer,
    at: &Option<Moment>,
    balance: &Option<Answer>,
) -> Option<Slipped> {
    match kind_of(act) {
        Some(kind) => Some(Slipped {
            kind,
            at: *at,
            paid: paid_of(act),
            owed: owed_of(alloc, balance),
            rental: rental_of(alloc, act, answer),
        }),
        None => None,
    }
}

/// Returns the text of a slip.
fn text_of<K: WallClock, V: Server, L: Shelf>(
    desk: &Desk<'_, K, V, L>,
    it: &Slipped,
    rented: &Rented,
) -> Result<String, TillFault> {
    let staff = desk.giver()?;
    let at = match it.at {
        Some(at) => at,
        None => desk.now()?,
    };
    let title = match &rented.title {
        Some(title) => Some(title.as_str()),
        None => None,
    };
    let slip = Slip {
        branch: branch_of(desk.sheet),
        staff,
        at: desk.on_wall(at),
        kind: it.kind,
        title,
        due: rented.due,
        paid: it.paid,
        owed: it.owed,
        rental: it.rental,
    };
    Ok(slip_text(desk.alloc, &slip)?)
}

/// Writes a slip after the last one, with what is known of a rent's film. Returns false if it can't be written.
pub(crate) fn write_slip<K: WallClock, V: Server, L: Shelf>(
    desk: &Desk<'_, K, V, L>,
    it: &Slipped,
    rented: &Rented,
) -> bool {
    match text_of(desk, it, rented) {
        Ok(text) => desk
            .shelf
            .append(desk.alloc, NAME, text.as_str().as_bytes()),
        Err(_) => false,
    }
}

/// Returns the last whole slip that was written: an empty text if there is none, and none if the slips can't be read.
fn last_written<K: WallClock, V: Server, L: Shelf>(
    desk: &Desk<'_, K, V, L>,
) -> Result<Option<String>, TillFault>
    ensures { IfOk result (λ it. IfSome it (λ slip. IsLastSlip (string_bytes slip))) }
{
    let Some(bytes) = desk.shelf.whole(desk.alloc, NAME) else {
        return Ok(None);
    };
    match std::str::from_utf8(bytes.as_slice()) {
        Ok(text) => Ok(Some(last_slip(desk.alloc, text)?)),
        Err(_) => Ok(None),
    }
}

/// Says a slip, or that there is none.
fn slip_said(alloc: Global, slip: &str) -> Result<Said, TillFault>
    ensures said { IfOk result (λ said. string_bytes said.text ≡ slip_or_none slip.now) }
    ensures status { IfOk result (λ said. said.status ≡ 0) }
{
    let mut said = Said::done(alloc);
    if slip.is_empty() {
        said.line("no slip was written yet")?;
    } else {
        said.line(slip)?;
    }
    Ok(said)
}

/// Says that the slips can't be read.
fn unread_said(alloc: Global) -> Result<Said, TillFault>
    ensures said { IfOk result (λ said. string_bytes said.text ≡ unread_text) }
    ensures status { IfOk result (λ said. said.status ≡ 3) }
{
    let mut said = Said::done(alloc);
    said.line("The slips can't be read. What was done is in the book: last.")?;
    said.status = 3;
    Ok(said)
}

/// Says the last whole slip that was written, or that there is none.
pub(crate) fn say_slip<K: WallClock, V: Server, L: Shelf>(
    desk: &Desk<'_, K, V, L>,
) -> Result<Said, TillFault>
    ensures { IfOk result (λ said. SaysSlip (string_bytes said.text) said.status) }
{
    match last_written(desk)? {
        Some(slip) => slip_said(desk.alloc, slip.as_str()),
        None => unread_said(desk.alloc),
    }
}
