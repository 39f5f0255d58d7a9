//! Answers what a branch asks about money.

ghost use Rattle.std.specs.Prelude.{◌≡◌, ◌≤◌, ℕ, IfErr, IfOk, length};
ghost use Rattle.sql_rows.specs.Calls.{DoesInside, DoesWithin};
ghost use Rattle.sql_rows.specs.Causes.{FailsByFaults};
ghost use Rattle.shop_model.specs.Values.{Balance, Rewards};
ghost use Rattle.shop_model.specs.Shop.{Shop};
ghost use Rattle.shop_model.specs.Stock.{balance};
ghost use Rattle.shop_types.specs.Seen.{seen_rule};
ghost use Rattle.shop_types.specs.Replies.{seen_reply};
ghost use Rattle.balance_rule.specs.Balance.{AreTermsOf, ArePaidBy};
ghost use Rattle.shop_ledger.specs.Asked.{HoldsBranch};
ghost use Rattle.shop_schema.specs.Asked.{HoldsBooks};
ghost use Rattle.branch_reports.specs.Looked.{Tells};
ghost use Rattle.branch_reports.specs.Told.{IsDecision};

use crate::balances::{find_paid, find_terms};
use crate::rewards::find_rewarded;
use balance_rule::{Paid, RentalTerms, balance};
use shop_store::chain::rule_at;
use shop_store::customers::active_at;
use shop_types::{BranchNo, Cents, CustomerNo, Moment, Refusal, Reply, Rule};
use shop_views::{balance_text, rewards_text};
use sql_rows::StoreFault;
use sqlite::{Alter, Transaction};
use std::alloc::Global;

/// Shows what a customer owes at a moment, by the rule of the chain.
pub fn look_balance<S: Alter>(
    alloc: Global,
    tx: &mut Transaction<'_, S>,
    branch: BranchNo,
    customer: CustomerNo,
    at: Moment,
) -> Result<Reply, StoreFault>
    ensures does { DoesInside S.Store tx.old.conn tx.new.conn result (Tells branch (Balance customer at)) }
    ensures decided { IfOk result (λ reply. IsDecision (seen_reply reply)) }
    ensures fails { FailsByFaults S.Store tx.old.conn tx.new.conn result HoldsBooks }
{
    match active_at(tx, branch, customer) {
        Ok(Some(_)) => {}
        Ok(None) => return Ok(Reply::refused(Refusal::NoCustomer)),
        Err(fault) => return Err(fault),
    }
    let rule = match rule_at(tx) {
        Ok(rule) => rule,
        Err(fault) => return Err(fault),
    };
    let rentals = match find_terms(alloc, tx, branch, customer) {
        Ok(rentals) => rentals,
        Err(fault) => return Err(fault),
    };
    let payments = match find_paid(alloc, tx, branch, customer) {
        Ok(payments) => payments,
        Err(fault) => return Err(fault),
    };
    let cents = match owed(rentals.as_slice(), payments.as_slice(), at, rule) {
        Ok(cents) => cents,
        Err(fault) => return Err(fault),
    };
    Ok(Reply::accepted(balance_text(alloc, cents)?))
}

/// Returns the balance by the rows and the rule. Fails if there are more than a million rows of a kind, which no sound
/// table has.
fn owed(
    rentals: &[RentalTerms],
    payments: &[Paid],
    at: Moment,
    rule: Rule,
) -> Result<Cents, StoreFault>
    ensures told { IfOk result (λ cents. (shop : Shop) (customer : ℕ) → AreTermsOf shop customer rentals.now
        → ArePaidBy shop customer payments.now
        → cents ≡ balance (seen_rule rule) shop customer at) }
    ensures failed { IfErr result (λ _. length rentals.now ≤ 1_000_000 → ¬ (length payments.now ≤ 1_000_000)) }
{
    if 1_000_000 < rentals.len() || 1_000_000 < payments.len() {
        return Err(StoreFault::Failed);
    }
    Ok(balance(rentals, payments, at, rule))
}

/// Lists the customers who are rewarded for the month before a moment's.
pub fn look_rewards<S: Alter>(
    alloc: Global,
    tx: &mut Transaction<'_, S>,
    branch: BranchNo,
    at: Moment,
    purchases: u32,
    cents: u32,
) -> Result<Reply, StoreFault>
    ensures does { DoesWithin S.Store tx.old.conn tx.new.conn result
        (Tells branch (Rewards at purchases cents)) }
    ensures decided { IfOk result (λ reply. IsDecision (seen_reply reply)) }
    ensures fails { FailsByFaults S.Store tx.old.conn tx.new.conn result (HoldsBranch branch) }
{
    if purchases == 0 || cents == 0 {
        return Ok(Reply::refused(Refusal::BadThreshold));
    }
    let customers = match find_rewarded(alloc, tx, branch, at, purchases, cents) {
        Ok(customers) => customers,
        Err(fault) => return Err(fault),
    };
    Ok(Reply::accepted(rewards_text(alloc, customers.as_slice())?))
}
