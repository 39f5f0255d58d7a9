//! What is asked before a command that can't be undone.

ghost use Rattle.std.specs.Prelude.{◌≡◌, Some, None, IfOk, IfErr, codes, option_and_then, string_bytes};
ghost use Rattle.shop_types.specs.Seen.{seen_act};
ghost use Rattle.till_shows.specs.Bodies.{body_of, cents_at};
ghost use Rattle.till_shows.specs.Questions as spec;
ghost use Rattle.till_shows.specs.declared.bodies.NotShown.TheVariants.{OtherForm};

use crate::bodies::{NotShown, cents_at, value_of};
use crate::entries::act_line;
use shop_types::{Act, Amount};
use std::alloc::{AllocError, Global};

/// The cents that a payment may be above what is owed without a question.
const UNASKED: u32 = 2000;

/// Reports whether the act is one that the till asks about before it is entered: a payment of more than $20, scrapped
/// or dispatched copies, and a consignment in which lines are missing.
pub fn is_grave(act: &Act) -> bool
    ensures { result ≡ spec.is_grave act.now }
{
    match act {
        Act::Pay { amount, .. } => amount.get() > UNASKED,
        Act::Scrap(_) | Act::Dispatch { .. } => true,
        Act::Receive { missing, .. } => !missing.as_slice().is_empty(),
        Act::Customer(_) | Act::Active { .. } | Act::Rent { .. } => false,
        Act::TakeBack(_) | Act::Import { .. } => false,
    }
}

/// Reports whether a payment is at most $20 above the cents that are owed.
pub fn is_covered(amount: Amount, owed: i64) -> bool
    ensures { result ≡ spec.is_covered amount owed }
{
    i64::from(amount.get()) - i64::from(UNASKED) <= owed
}

/// Returns the cents that the customer owes, from the body of `GET /balance/{customer}/{at}`.
pub fn owed_cents(alloc: Global, body: &[u8]) -> Result<i64, NotShown>
    ensures shown { IfOk result (λ cents. option_and_then (cents_at (codes "balance")) (body_of body.now)
        ≡ Some cents) }
    ensures other { IfErr result (λ fault. fault ≡ OtherForm
        → option_and_then (cents_at (codes "balance")) (body_of body.now) ≡ None) }
{
    let value = value_of(alloc, body)?;
    match cents_at(&value, "balance") {
        Some(cents) => Ok(cents),
        None => Err(NotShown::OtherForm),
    }
}

/// Returns the question before an act that can't be undone. `owed` is what is said of the customer before it.
pub fn question_on(alloc: Global, act: &Act, owed: &str) -> Result<String, AllocError>
    ensures { IfOk result (λ text. string_bytes text ≡ spec.question_text owed.now (seen_act act.now)) }
{
    let line = act_line(alloc, act)?;
    format!(in alloc; "{owed}{line}. It can't be undone. Do it? y/n ")
}
