//! Answers to requests inside a transaction.

ghost use Rattle.std.specs.Prelude.{◌≡◌, false, ⊤, IfOk, IsTrue};
ghost use Rattle.sql_rows.specs.Calls.{DoesInside};
ghost use Rattle.sql_rows.specs.Causes.{FailsByFaults};
ghost use Rattle.shop_model.specs.Books.{Counter, HeadOffice};
ghost use Rattle.shop_model.specs.Machine.{Office};
ghost use Rattle.shop_types.specs.Seen.{seen_office, seen_request};
ghost use Rattle.shop_types.specs.Replies.{seen_reply};
ghost use Rattle.shop_schema.specs.Asked.{HoldsBooks};
ghost use Rattle.shop_ledger.specs.Calls.{Finds};
ghost use Rattle.branch_reports.specs.Told.{IsDecision};
ghost use Rattle.branch_finds.specs.Looks.{IsKnown, IsStill, TellsDecision};
ghost use Rattle.chain_requests.specs.Reports.{for_branch};
ghost use Rattle.chain_requests.specs.Steps.{IsHeldBy, IsKnownFor, DoesRequest, asker, asked_of, no_route};
ghost use Rattle.chain_requests.specs.Wells.{is_row_look};

use crate::asked::Asked;
use crate::office_commands::answer_office;
use crate::reports::Report;
use branch_finds::{Listing, Work, answer_look, answer_view};
use branch_work::answer_command;
use chain_caches::FilmCache;
use shop_ledger::{Answered, standing_at};
use shop_types::{BranchNo, Limits, OfficeCommand, Refusal, Reply, Request};
use sql_rows::StoreFault;
use sqlite::{Alter, Transaction};
use std::alloc::Global;

/// Answers the request inside a transaction, or returns what is to be read outside the transaction.
pub fn answer_inside<S: Alter>(
    alloc: Global,
    tx: &mut Transaction<'_, S>,
    films: &mut FilmCache,
    limits: Limits,
    asked: &Asked<'_>,
) -> Result<Work<Report>, StoreFault>
    ensures does { DoesInside S.Store tx.old.conn tx.new.conn result
        (DoesRequest limits (asker asked.now) (asked_of asked.now) (IsHeldBy (IsKnownFor asked.now) films.old) films.new) }
    ensures decided { IfOk result TellsDecision }
    ensures still { IsTrue (is_row_look (asked_of asked.now)) → IfOk result IsStill }
    ensures fails { IsTrue (is_row_look (asked_of asked.now))
        → FailsByFaults S.Store tx.old.conn tx.new.conn result HoldsBooks }
{
    match *asked {
        Asked::OfBranch {
            branch,
            is_known,
            request,
        } => branch_inside(alloc, tx, films, limits, branch, is_known, request),
        Asked::OfOffice(command) => office_inside(alloc, tx, films, limits, command),
    }
}

/// Answers a branch's request inside a transaction, or returns what is to be read outside it.
fn branch_inside<S: Alter>(
    alloc: Global,
    tx: &mut Transaction<'_, S>,
    films: &mut FilmCache,
    limits: Limits,
    branch: BranchNo,
    is_known: bool,
    request: &Request,
) -> Result<Work<Report>, StoreFault>
    ensures does { DoesInside S.Store tx.old.conn tx.new.conn result (DoesRequest limits (Counter branch)
        (seen_request request.now) (IsHeldBy (IsKnown is_known branch) films.old) films.new) }
    ensures decided { IfOk result TellsDecision }
    ensures still { IsTrue (is_row_look (seen_request request.now)) → IfOk result IsStill }
    ensures fails { IsTrue (is_row_look (seen_request request.now))
        → FailsByFaults S.Store tx.old.conn tx.new.conn result HoldsBooks }
{
    match request {
        Request::Do(command) => {
            let done = answer_command(alloc, tx, films, limits, branch, command)?;
            Ok(Work::Answered(done))
        }
        Request::Look(ask) => {
            let look = answer_look(alloc, tx, branch, is_known, ask)?;
            Ok(for_branch(branch, look))
        }
        Request::View(view) => {
            let look = answer_view(tx, branch, *view)?;
            Ok(for_branch(branch, look))
        }
        Request::Office(_) | Request::OfficeLook(_) => {
            let done = refuse_office(tx, branch)?;
            Ok(Work::Answered(done))
        }
    }
}

/// Returns the work with the branch's list as a report.
fn for_branch(branch: BranchNo, work: Work<Listing>) -> Work<Report>
    ensures { result ≡ for_branch branch work }
{
    match work {
        Work::Answered(done) => Work::Answered(done),
        Work::Shows(list) => Work::Shows(Report::OfBranch(branch, list)),
    }
}

/// Refuses a request of head office that comes from a branch: it has no route. If the branch isn't there, the refusal
/// is `NoCounter`.
fn refuse_office<S: Alter>(
    tx: &mut Transaction<'_, S>,
    branch: BranchNo,
) -> Result<Answered, StoreFault>
    ensures does { DoesInside S.Store tx.old.conn tx.new.conn result
        (λ done. Finds (λ books. (seen_reply done.reply ≡ no_route branch books) × (done.is_changed ≡ false))) }
    ensures decided { IfOk result (λ done. IsDecision (seen_reply done.reply)) }
{
    match standing_at(tx, branch)? {
        Some(_) => Ok(Answered {
            reply: Reply::refused(Refusal::NoRoute),
            is_changed: false,
        }),
        None => Ok(Answered {
            reply: Reply::refused(Refusal::NoCounter),
            is_changed: false,
        }),
    }
}

/// Answers head office's command inside a transaction.
fn office_inside<S: Alter>(
    alloc: Global,
    tx: &mut Transaction<'_, S>,
    films: &mut FilmCache,
    limits: Limits,
    command: &OfficeCommand,
) -> Result<Work<Report>, StoreFault>
    ensures does { DoesInside S.Store tx.old.conn tx.new.conn result
        (DoesRequest limits HeadOffice (Office (seen_office command.now)) (IsHeldBy (λ _. ⊤) films.old) films.new) }
    ensures decided { IfOk result TellsDecision }
{
    // This comes before any write: the films that stay known are right, whether or not the command is done.
    films.take_out_changed(&command.act);
    let done = answer_office(alloc, tx, limits, command)?;
    Ok(Work::Answered(done))
}
