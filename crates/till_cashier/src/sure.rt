//! What has to be asked before a word that can't be undone.

ghost use Rattle.std.specs.Prelude.{◌≡◌, is_ok, IfErr};
ghost use Rattle.till_cashier.specs.Sure as spec;

use crate::caches::Shelf;
use crate::clock::WallClock;
use crate::commands::called;
use crate::desk::Desk;
use crate::fault::TillFault;
use crate::twice::namesake;
use shop_types::{Act, Amount, Ask, CustomerNo, Moment, Person};
use till_requests::look_request;
use till_shows::{balance_line, is_covered, is_grave, owed_cents, question_on};
use till_words::TillAct;
use till_work::Server;

/// Reports whether the word is one that the till asks about before it is entered.
pub(crate) fn wants_yes(act: &TillAct) -> bool
    ensures { result ≡ spec.wants_yes act.now }
{
    match act {
        TillAct::Do(act) => is_grave(act),
        TillAct::ReturnCopy(_) | TillAct::Office(_) | TillAct::Send | TillAct::Look(_) => false,
        TillAct::Waiting | TillAct::Last(_) | TillAct::Help | TillAct::Init(_) => false,
        TillAct::Import { .. } | TillAct::Prompt | TillAct::Zone(_) | TillAct::Day(_) => false,
        TillAct::Today(_) | TillAct::Again { .. } => false,
        TillAct::Slip | TillAct::JoinIn(_) => false,
    }
}

/// Refuses a word that wants an answer and has none.
pub(crate) fn is_answered(wants: bool, is_sure: bool) -> Result<(), TillFault>
    ensures answered { is_ok result ≡ spec.is_answered wants is_sure }
    ensures unsure { IfErr result (λ fault. fault ≡ TillFault.Unsure) }
{
    if wants && !is_sure {
        Err(TillFault::Unsure)
    } else {
        Ok(())
    }
}

/// What a customer owes, in cents, and as a line.
#[derive(Drop)]
struct Owed {
    cents: i64,
    line: String,
}

/// Asks the server what the customer owes at the clock's moment, or at the last entry's if that is later.
fn owed_by<K: WallClock, V: Server, L: Shelf>(
    desk: &Desk<'_, K, V, L>,
    customer: CustomerNo,
    last: Option<Moment>,
) -> Result<Owed, TillFault> {
    let at = desk.now_behind(last)?;
    let ask = Ask::Balance { customer, at };
    let request = look_request(desk.alloc, desk.routes, &desk.settings.token, &ask)?;
    let answer = desk.ask(request.as_slice())?;
    let cents = owed_cents(desk.alloc, answer.body.as_slice())?;
    let name = called(desk, customer)?;
    let line = balance_line(desk.alloc, name.as_str(), answer.body.as_slice())?;
    Ok(Owed { cents, line })
}

/// What is asked before a word, and why the word isn't done if the answer isn't yes.
#[derive(Drop)]
pub struct Inquiry {
    pub text: String,
    pub fault: TillFault,
}

/// Returns the question before an act that can't be undone. `owed` is what is said of the customer before it.
fn grave<K: WallClock, V: Server, L: Shelf>(
    desk: &Desk<'_, K, V, L>,
    act: &Act,
    owed: &str,
) -> Result<Option<Inquiry>, TillFault> {
    Ok(Some(Inquiry {
        text: question_on(desk.alloc, act, owed)?,
        fault: TillFault::Unsure,
    }))
}

/// Returns the question on a payment, or none if what is owed covers it. If what is owed can't be asked, it doesn't.
fn on_payment<K: WallClock, V: Server, L: Shelf>(
    desk: &Desk<'_, K, V, L>,
    act: &Act,
    customer: CustomerNo,
    amount: Amount,
    last: Option<Moment>,
) -> Result<Option<Inquiry>, TillFault> {
    let alloc = desk.alloc;
    match owed_by(desk, customer, last) {
        Ok(owed) if is_covered(amount, owed.cents) => Ok(None),
        Ok(owed) => {
            let line = format!(in alloc; "{}. ", owed.line)?;
            grave(desk, act, line.as_str())
        }
        Err(_) => grave(desk, act, ""),
    }
}

/// Returns the question on a person who joins, if the branch has a customer with that name and telephone number. If the
/// list of customers can't be had, nothing is asked.
fn on_join<K: WallClock, V: Server, L: Shelf>(
    desk: &Desk<'_, K, V, L>,
    person: &Person,
) -> Result<Option<Inquiry>, TillFault> {
    let Ok(Some(it)) = namesake(desk, person) else {
        return Ok(None);
    };
    let (alloc, number) = (desk.alloc, it.number);
    let text = format!(in alloc;
        "Customer {number} is {}, with that phone. Is this somebody else? y/n ",
        it.name
    )?;
    Ok(Some(Inquiry {
        text,
        fault: TillFault::Joined(number),
    }))
}

/// Returns the question before an act, or none if the act may be entered without one.
fn question_before<K: WallClock, V: Server, L: Shelf>(
    desk: &Desk<'_, K, V, L>,
    act: &Act,
    last: Option<Moment>,
) -> Result<Option<Inquiry>, TillFault> {
    match act {
        Act::Customer(new) => on_join(desk, &new.person),
        Act::Pay {
            customer,
            amount,
            ..
        } if is_grave(act) => on_payment(desk, act, *customer, *amount, last),
        Act::Scrap(_) | Act::Dispatch { .. } => grave(desk, act, ""),
        Act::Receive { .. } if is_grave(act) => grave(desk, act, ""),
        Act::Pay { .. } | Act::Receive { .. } | Act::Active { .. } => Ok(None),
        Act::Rent { .. } | Act::TakeBack(_) | Act::Import { .. } => Ok(None),
    }
}

/// Returns the question before a word, or none if the word may be entered without one. At head office's book none is
/// asked, since a branch's word is refused there. `last` is the last entry's moment.
pub fn question<K: WallClock, V: Server, L: Shelf>(
    desk: &Desk<'_, K, V, L>,
    act: &TillAct,
    last: Option<Moment>,
) -> Result<Option<Inquiry>, TillFault> {
    if desk.settings.staff.is_none() {
        return Ok(None);
    }
    match act {
        TillAct::Do(act) => question_before(desk, act, last),
        TillAct::ReturnCopy(_) | TillAct::Office(_) | TillAct::Send | TillAct::Look(_) => Ok(None),
        TillAct::Waiting | TillAct::Last(_) | TillAct::Help | TillAct::Init(_) => Ok(None),
        TillAct::Import { .. } | TillAct::Prompt | TillAct::Zone(_) | TillAct::Day(_) => Ok(None),
        TillAct::Today(_) | TillAct::Again { .. } => Ok(None),
        TillAct::Slip | TillAct::JoinIn(_) => Ok(None),
    }
}
