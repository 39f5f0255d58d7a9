//! Readings whose rows come one at a time, outside any transaction.

ghost use Rattle.std.specs.Prelude.{◌≡◌, false, IfOk, string_bytes};
ghost use Rattle.sqlite.specs.Held.{state};
ghost use Rattle.sqlite.specs.State.{HasCleanDisk, Survives};
ghost use Rattle.sql_rows.specs.Calls.{StaysSame};
ghost use Rattle.shop_model.specs.Books.{Books};
ghost use Rattle.shop_model.specs.Answers.{shown_text};
ghost use Rattle.shop_types.specs.Replies.{seen_reply};
ghost use Rattle.shop_schema.specs.Shop.{Holds};
ghost use Rattle.shop_schema.specs.Held.{IsHeld};
ghost use Rattle.branch_finds.specs.Looks.{listed};
ghost use Rattle.branch_reports.specs.Told.{IsDecision};
ghost use Rattle.chain_requests.specs.Steps.{IsUndone};
ghost use Rattle.chain_requests.specs.Reports.{shown_by, ShowsReport};

use branch_finds::Listing;
use consign_store::{arrivals, sent, transit};
use shop_types::{BranchNo, Reply};
use sql_rows::StoreFault;
use sqlite::{Alter, Connection};
use std::alloc::Global;
use view_texts::{overdue_list, sales, view_text};

/// A reading.
#[derive(Clone, Copy)]
pub enum Report {
    /// A list, for the branch.
    OfBranch(BranchNo, Listing),
    /// What each branch has taken for rentals.
    Sales,
    /// The consignments that aren't received.
    Transit,
}

/// Reads a branch's list, as text.
fn listed_text<S: Alter>(
    alloc: Global,
    conn: &mut Connection<S>,
    branch: BranchNo,
    list: Listing,
) -> Result<String, StoreFault>
    ensures text { HasCleanDisk (state S.Store conn.new)
        → IfOk result (λ s. (books : Books) → Holds (state S.Store conn.old) books → IsHeld books → string_bytes s
        ≡ shown_text (listed branch list books)) }
    ensures same { StaysSame S.Store conn.old conn.new result }
{
    match list {
        Listing::View(view) => view_text(alloc, conn, branch, view),
        Listing::Overdue(at) => overdue_list(alloc, conn, branch, at),
        Listing::Arrivals => arrivals(alloc, conn, branch),
        Listing::Sent => sent(alloc, conn, branch),
    }
}

/// Makes the reading, as text.
fn report_text<S: Alter>(
    alloc: Global,
    conn: &mut Connection<S>,
    report: Report,
) -> Result<String, StoreFault>
    ensures text { HasCleanDisk (state S.Store conn.new)
        → IfOk result (λ s. (books : Books) → Holds (state S.Store conn.old) books → IsHeld books → string_bytes s
        ≡ shown_text (shown_by report books)) }
    ensures same { StaysSame S.Store conn.old conn.new result }
{
    match report {
        Report::OfBranch(branch, list) => listed_text(alloc, conn, branch, list),
        Report::Sales => sales(alloc, conn),
        Report::Transit => transit(alloc, conn),
    }
}

/// Makes the reply that shows the reading. The database stays as it was.
pub fn show<S: Alter>(
    alloc: Global,
    conn: &mut Connection<S>,
    report: Report,
) -> Result<Reply, StoreFault>
    requires { conn.old.in_transaction ≡ false }
    ensures ended { conn.new.in_transaction ≡ false }
    ensures shown { HasCleanDisk (state S.Store conn.new)
        → IfOk result (λ reply. ShowsReport report (seen_reply reply) (state S.Store conn.old)) }
    ensures same { HasCleanDisk (state S.Store conn.new) → IsUndone (state S.Store conn.old) (state S.Store conn.new) }
    ensures crash { Survives (state S.Store conn.old) (state S.Store conn.new) (λ _. ⊥) }
    ensures decided { IfOk result (λ reply. IsDecision (seen_reply reply)) }
{
    let text = report_text(alloc, conn, report);
    // This discards what a failed query may have left, as the end of a transaction does.
    conn.transaction().rollback();
    match text {
        Ok(text) => Ok(Reply::accepted(text)),
        Err(fault) => Err(fault),
    }
}
