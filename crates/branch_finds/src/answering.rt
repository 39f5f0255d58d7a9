//! Answers a branch's readings and views, whether or not the branch is there.

ghost use Rattle.std.specs.Prelude.{◌≡◌, false, IfOk};
ghost use Rattle.sql_rows.specs.Calls.{DoesInside};
ghost use Rattle.sql_rows.specs.Causes.{FailsByFaults};
ghost use Rattle.shop_model.specs.Values.{OneView};
ghost use Rattle.shop_model.specs.Refusals.{NoCounter};
ghost use Rattle.shop_model.specs.Machine.{Sorry};
ghost use Rattle.shop_model.specs.Answers.{answer_of};
ghost use Rattle.shop_types.specs.Seen.{seen_ask, seen_view};
ghost use Rattle.shop_types.specs.Replies.{seen_reply};
ghost use Rattle.shop_ledger.specs.Calls.{Finds};
ghost use Rattle.shop_schema.specs.Asked.{HoldsBooks};
ghost use Rattle.branch_finds.specs.Looks.{IsAnswered, IsKnown, TellsDecision, is_list, IsStill};

use crate::readings::{look, reads_row};
use crate::work::{Listing, Work};
use shop_ledger::{Answered, standing_at};
use shop_types::{Ask, BranchNo, Refusal, Reply, View};
use sql_rows::StoreFault;
use sqlite::{Alter, Transaction};
use std::alloc::Global;

/// Answers a branch's reading. If the reading asks for a list, returns the list for the caller to show. `is_known` says
/// whether the branch is known to be there.
pub fn answer_look<S: Alter>(
    alloc: Global,
    tx: &mut Transaction<'_, S>,
    branch: BranchNo,
    is_known: bool,
    ask: &Ask,
) -> Result<Work<Listing>, StoreFault>
    ensures does { DoesInside S.Store tx.old.conn tx.new.conn result
        (λ it. Finds (λ books. IsKnown is_known branch books.catalogue → IsAnswered branch (seen_ask ask.now) it books)) }
    ensures decided { IfOk result TellsDecision }
    ensures still { is_list (seen_ask ask.now) ≡ false → IfOk result IsStill }
    ensures fails { FailsByFaults S.Store tx.old.conn tx.new.conn result HoldsBooks }
{
    // A reading that reads no row doesn't show that the transaction is open.
    if is_known && reads_row(*ask) {
        return look(alloc, tx, branch, *ask);
    }
    look_where_found(alloc, tx, branch, *ask)
}

/// Looks for the branch first, and then answers its reading.
fn look_where_found<S: Alter>(
    alloc: Global,
    tx: &mut Transaction<'_, S>,
    branch: BranchNo,
    ask: Ask,
) -> Result<Work<Listing>, StoreFault>
    ensures does { DoesInside S.Store tx.old.conn tx.new.conn result
        (λ it. Finds (IsAnswered branch (seen_ask ask) it)) }
    ensures decided { IfOk result TellsDecision }
    ensures still { is_list (seen_ask ask) ≡ false → IfOk result IsStill }
    ensures fails { FailsByFaults S.Store tx.old.conn tx.new.conn result HoldsBooks }
{
    match standing_at(tx, branch) {
        Ok(Some(_)) => look(alloc, tx, branch, ask),
        Ok(None) => Ok(Work::Answered(no_counter())),
        Err(fault) => Err(fault),
    }
}

/// Looks for the branch, and returns the view as a list for the caller to show.
pub fn answer_view<S: Alter>(
    tx: &mut Transaction<'_, S>,
    branch: BranchNo,
    view: View,
) -> Result<Work<Listing>, StoreFault>
    ensures does { DoesInside S.Store tx.old.conn tx.new.conn result
        (λ it. Finds (IsAnswered branch (OneView (seen_view view)) it)) }
    ensures decided { IfOk result TellsDecision }
{
    match standing_at(tx, branch)? {
        Some(_) => Ok(Work::Shows(Listing::View(view))),
        None => Ok(Work::Answered(no_counter())),
    }
}

/// Returns the answer to a branch that isn't there.
fn no_counter() -> Answered
    ensures reply { seen_reply result.reply ≡ answer_of (Sorry NoCounter) }
    ensures same { result.is_changed ≡ false }
{
    Answered {
        reply: Reply::refused(Refusal::NoCounter),
        is_changed: false,
    }
}
