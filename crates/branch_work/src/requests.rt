//! Answers a branch's command inside one transaction.

ghost use Rattle.std.specs.Prelude.{◌≡◌, true, IfOk};
ghost use Rattle.sql_rows.specs.Calls.{DoesInside, DoesWithin};
ghost use Rattle.shop_model.specs.Calendar.{IsMoment};
ghost use Rattle.shop_model.specs.Machine.{Do};
ghost use Rattle.shop_types.specs.Seen.{seen_command};
ghost use Rattle.shop_types.specs.Replies.{seen_reply};
ghost use Rattle.shop_schema.specs.Forms.{command_form};
ghost use Rattle.branch_work.specs.Works.{Works, WorksFor, WorksBy, IsAdded};
ghost use Rattle.branch_reports.specs.Told.{IsDecision};

use crate::adding::{carry_out, keep};
use crate::answering::{again, refuse};
use branch_core::{Found, RowsFound, decide};
use branch_finds::find_for_command;
use chain_caches::FilmCache;
use shop_ledger::{Answered, Owner, Standing, kept_at, kept_found, standing_at};
use shop_schema::{command_form, command_values};
use shop_types::{BranchNo, Change, Command, Limits, Refusal, Reply};
use sql_rows::{Bytes, StoreFault};
use sqlite::{Alter, Transaction};
use std::alloc::Global;

/// Looks for the branch, and then answers its command. The result says whether there is anything to commit.
pub fn answer_command<S: Alter>(
    alloc: Global,
    tx: &mut Transaction<'_, S>,
    films: &mut FilmCache,
    limits: Limits,
    branch: BranchNo,
    command: &Command,
) -> Result<Answered, StoreFault>
    ensures does { DoesInside S.Store tx.old.conn tx.new.conn result
        (Works limits branch (Do (seen_command command.now)) films.old films.new) }
    ensures decided { IfOk result (λ done. IsDecision (seen_reply done.reply)) }
{
    let Some(standing) = standing_at(tx, branch)? else {
        return Ok(Answered {
            reply: Reply::refused(Refusal::NoCounter),
            is_changed: false,
        });
    };
    answer_where_found(alloc, tx, films, limits, branch, standing, command)
}

/// Answers a command of a branch that is there and whose standing is known.
fn answer_where_found<S: Alter>(
    alloc: Global,
    tx: &mut Transaction<'_, S>,
    films: &mut FilmCache,
    limits: Limits,
    branch: BranchNo,
    standing: Standing,
    command: &Command,
) -> Result<Answered, StoreFault>
    ensures does { DoesWithin S.Store tx.old.conn tx.new.conn result
        (WorksFor limits branch standing (Do (seen_command command.now)) films.old films.new) }
    ensures decided { IfOk result (λ done. IsDecision (seen_reply done.reply)) }
{
    let form = form_of(alloc, command)?;
    let kept = kept_at(tx, Owner::Branch(branch), &command.key)?;
    let found = find_for_command(
        alloc,
        tx,
        films,
        branch,
        command,
        standing,
        kept_found(kept.as_ref(), &form),
    )?;
    answer(alloc, tx, limits, branch, command, &form, &found)
}

/// Answers a command by what was found for its decision.
fn answer<S: Alter>(
    alloc: Global,
    tx: &mut Transaction<'_, S>,
    limits: Limits,
    branch: BranchNo,
    command: &Command,
    form: &Bytes,
    found: &Found<'_>,
) -> Result<Answered, StoreFault>
    requires form { form.now ≡ command_form (seen_command command.now) }
    ensures does { DoesWithin S.Store tx.old.conn tx.new.conn result
        (WorksBy limits branch (seen_command command.now) found.now) }
    ensures decided { IfOk result (λ done. IsDecision (seen_reply done.reply)) }
{
    match decide(branch, command, found, limits) {
        Ok(Change::Again(reply)) => again(alloc, reply),
        Ok(Change::Accepted) => add(alloc, tx, branch, command, form, &found.rows),
        Err(refusal) => refuse(alloc, refusal),
    }
}

/// Returns the stored form of a command. The command's moment is a date of the calendar.
fn form_of(alloc: Global, command: &Command) -> Result<Bytes, StoreFault>
    ensures form { IfOk result (λ form. form ≡ command_form (seen_command command.now)) }
    ensures moment { IsMoment command.now.at }
{
    command_values(command);
    match command_form(alloc, command) {
        Ok(form) => Ok(form),
        Err(_) => Err(StoreFault::Memory),
    }
}

/// Carries out an accepted command, keeps it, and returns its reply. There is something to commit.
fn add<S: Alter>(
    alloc: Global,
    tx: &mut Transaction<'_, S>,
    branch: BranchNo,
    command: &Command,
    form: &Bytes,
    rows: &RowsFound,
) -> Result<Answered, StoreFault>
    requires form { form.now ≡ command_form (seen_command command.now) }
    ensures does { DoesWithin S.Store tx.old.conn tx.new.conn result
        (λ done old new. (done.is_changed ≡ true)
        × ((limits : _) → IsAdded limits branch (seen_command command.now) rows.now (seen_reply done.reply) old new)) }
    ensures decided { IfOk result (λ done. IsDecision (seen_reply done.reply)) }
{
    let text = carry_out(alloc, tx, branch, command, rows)?;
    keep(tx, branch, command, form, text.as_str())?;
    Ok(Answered {
        reply: Reply::accepted(text),
        is_changed: true,
    })
}
