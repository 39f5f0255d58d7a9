//! A command of head office inside one transaction.

ghost use Rattle.std.specs.Prelude.{◌≡◌, IfOk};
ghost use Rattle.sql_rows.specs.Calls.{DoesInside, DoesWithin};
ghost use Rattle.shop_model.specs.Machine.{Office};
ghost use Rattle.shop_model.specs.Books.{HeadOffice};
ghost use Rattle.shop_types.specs.Seen.{seen_office};
ghost use Rattle.shop_types.specs.Replies.{seen_reply};
ghost use Rattle.shop_schema.specs.Forms.{office_command_form};
ghost use Rattle.branch_work.specs.Works.{Does};
ghost use Rattle.chain_requests.specs.OfficeWorks.{WorksBeside};
ghost use Rattle.branch_reports.specs.Told.{IsDecision};

use branch_work::{again, refuse};
use catalogue_core::{Shared, decide_office};
use catalogue_rows::{add, find};
use shop_ledger::{Answered, Owner, kept_at, kept_found};
use shop_schema::office_form;
use shop_types::{Change, KeptFound, Limits, OfficeCommand};
use sql_rows::{Bytes, StoreFault};
use sqlite::{Alter, Transaction};
use std::alloc::Global;

/// Answers a command of head office. The result says whether there is anything to commit.
pub(crate) fn answer_office<S: Alter>(
    alloc: Global,
    tx: &mut Transaction<'_, S>,
    limits: Limits,
    command: &OfficeCommand,
) -> Result<Answered, StoreFault>
    ensures does { DoesInside S.Store tx.old.conn tx.new.conn result
        (Does limits HeadOffice (Office (seen_office command.now))) }
    ensures decided { IfOk result (λ done. IsDecision (seen_reply done.reply)) }
{
    let kept = kept_at(tx, Owner::Office, &command.key)?;
    let form = form_of(alloc, command)?;
    let kept = kept_found(kept.as_ref(), &form);
    answer(alloc, tx, limits, command, kept, &form)
}

/// Answers a command of head office, given what head office has under the command's key, and the command's stored
/// form.
fn answer<S: Alter>(
    alloc: Global,
    tx: &mut Transaction<'_, S>,
    limits: Limits,
    command: &OfficeCommand,
    kept: Option<KeptFound<'_>>,
    form: &Bytes,
) -> Result<Answered, StoreFault>
    requires { form.now ≡ office_command_form (seen_office command.now) }
    ensures does { DoesWithin S.Store tx.old.conn tx.new.conn result
        (WorksBeside kept.entry limits (seen_office command.now)) }
    ensures decided { IfOk result (λ done. IsDecision (seen_reply done.reply)) }
{
    let found = find(tx, command)?;
    let shared = Shared {
        kept,
        keys: found.keys,
        office_token: found.office_token,
        rows: found.rows,
    };
    match decide_office(command, &shared, limits) {
        Ok(Change::Again(reply)) => again(alloc, reply),
        Ok(Change::Accepted) => add(alloc, tx, command, form),
        Err(refusal) => refuse(alloc, refusal),
    }
}

/// Makes the stored form of a command.
fn form_of(alloc: Global, command: &OfficeCommand) -> Result<Bytes, StoreFault>
    ensures { IfOk result (λ form. form ≡ office_command_form (seen_office command.now)) }
{
    match office_form(alloc, command) {
        Ok(form) => Ok(form),
        Err(_) => Err(StoreFault::Memory),
    }
}
