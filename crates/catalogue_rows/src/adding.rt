//! Writes and counts the rows of an accepted command of head office, keeps the command, and makes its reply.

ghost use Rattle.std.specs.Prelude.{◌≡◌, ℕ, ◌+◌, true, string_bytes, Ok, IsOk, IfOk};
ghost use Rattle.sql_rows.specs.Calls.{DoesInside};
ghost use Rattle.shop_model.specs.Json.{object};
ghost use Rattle.shop_model.specs.Answers.{accepted_answer};
ghost use Rattle.shop_model.specs.Values as model;
ghost use Rattle.shop_types.specs.Seen.{seen_branch, seen_office_act, seen_office};
ghost use Rattle.shop_types.specs.Replies.{seen_reply};
ghost use Rattle.shop_schema.specs.Forms.{office_command_form};
ghost use Rattle.shop_views.specs.Bodies.{office_members};
ghost use Rattle.catalogue_rows.specs.Added.{IsNumbered, IsKept, IsAdded};

use crate::rows::{new_actor, new_branch, new_city, new_film, new_staff};
use shop_ledger::{Answered, Count, Owner, put_counts, put_kept, take_numbers};
use shop_store::branches::set_manager;
use shop_store::chain::set_rule;
use shop_store::films::{set_rate, set_withdrawn};
use shop_store::lasts::{SharedTable, last_number};
use shop_store::puts::{
    put_actor, put_branch, put_cast, put_category, put_city, put_country, put_film, put_language,
    put_staff,
};
use shop_store::staff::set_gone;
use shop_types::{Branch, OfficeAct, OfficeCommand, Reply, RowNumber};
use shop_views::office_text;
use sql_rows::{Bytes, StoreFault};
use sqlite::{Alter, Transaction};
use std::alloc::Global;

/// Writes the rows of an accepted command, keeps the command, and returns its reply. There is something to commit.
/// `form` is the command's stored form.
pub fn add<S: Alter>(
    alloc: Global,
    tx: &mut Transaction<'_, S>,
    command: &OfficeCommand,
    form: &Bytes,
) -> Result<Answered, StoreFault>
    requires { form.now ≡ office_command_form (seen_office command.now) }
    ensures does { DoesInside S.Store tx.old.conn tx.new.conn result
        (λ done old new. (done.is_changed ≡ true) × IsAdded (seen_office command.now) (seen_reply done.reply) old new) }
    ensures accepted { IfOk result (λ done. (text : model.Text) × (seen_reply done.reply ≡ accepted_answer text)) }
{
    let number = write(tx, &command.act)?;
    let text = office_text(alloc, &command.act, number)?;
    keep(tx, command, form, text.as_str())?;
    Ok(Answered {
        reply: Reply::accepted(text),
        is_changed: true,
    })
}

/// Keeps an accepted command with its reply, and counts it.
fn keep<S: Alter>(
    tx: &mut Transaction<'_, S>,
    command: &OfficeCommand,
    form: &Bytes,
    reply: &str,
) -> Result<(), StoreFault>
    requires { form.now ≡ office_command_form (seen_office command.now) }
    ensures { DoesInside S.Store tx.old.conn tx.new.conn result
        (λ _. IsKept (seen_office command.now) reply.now) }
{
    put_kept(tx, Owner::Office, &command.key, form, reply)?;
    take_numbers(tx, Count::OfficeKeys, 1)?;
    Ok(())
}

/// Writes the rows of an act. Returns the number of its new row, or 0 if the act has no new row with a number.
fn write<S: Alter>(tx: &mut Transaction<'_, S>, act: &OfficeAct) -> Result<u32, StoreFault>
    ensures { DoesInside S.Store tx.old.conn tx.new.conn result
        (IsNumbered (seen_office_act act.now)) }
{
    match act {
        OfficeAct::Country(name) => {
            let number = next(last_number(tx, SharedTable::Country))?;
            numbered(number, put_country(tx, number, name.as_str()))
        }
        OfficeAct::City(city) => {
            let number = next(last_number(tx, SharedTable::City))?;
            numbered(number, put_city(tx, &new_city(number, city)))
        }
        OfficeAct::Language(name) => {
            let number = next(last_number(tx, SharedTable::Language))?;
            numbered(number, put_language(tx, number, name.as_str()))
        }
        OfficeAct::Category(name) => {
            let number = next(last_number(tx, SharedTable::Category))?;
            numbered(number, put_category(tx, number, name.as_str()))
        }
        OfficeAct::Actor(actor) => {
            let number = next(last_number(tx, SharedTable::Actor))?;
            numbered(number, put_actor(tx, &new_actor(number, actor)))
        }
        OfficeAct::Film(film) => {
            let number = next(last_number(tx, SharedTable::Film))?;
            numbered(number, put_film(tx, &new_film(number, film)))
        }
        OfficeAct::Price { film, rate } => without_number(set_rate(tx, *film, *rate)),
        OfficeAct::Withdraw(film) => without_number(set_withdrawn(tx, *film)),
        OfficeAct::Cast { film, actor } => without_number(put_cast(tx, *film, *actor)),
        OfficeAct::Branch(branch) => add_branch(tx, branch),
        OfficeAct::Staff(staff) => {
            let number = next(last_number(tx, SharedTable::Staff))?;
            numbered(number, put_staff(tx, &new_staff(number, staff)))
        }
        OfficeAct::Leave(staff) => without_number(set_gone(tx, *staff)),
        OfficeAct::Manager { branch, staff } => without_number(set_manager(tx, *branch, *staff)),
        OfficeAct::Rule(rule) => without_number(set_rule(tx, *rule)),
    }
}

/// Returns the number that comes after the last one.
fn next<const KIND: u8>(last: Result<u32, StoreFault>) -> Result<RowNumber<KIND>, StoreFault>
    ensures { IfOk result (λ number. (n : ℕ) × (last ≡ Ok n) × (number ≡ n + 1)) }
{
    after(last?)
}

fn after<const KIND: u8>(last: u32) -> Result<RowNumber<KIND>, StoreFault>
    ensures { IfOk result (λ number. number ≡ last + 1) }
{
    let Some(next) = last.checked_add(1) else {
        return Err(StoreFault::Size);
    };
    match RowNumber::new(next) {
        Some(number) => Ok(number),
        None => Err(StoreFault::Size),
    }
}

/// Returns the number of a new row that was put.
fn numbered<const KIND: u8>(
    number: RowNumber<KIND>,
    put: Result<(), StoreFault>,
) -> Result<u32, StoreFault>
    ensures { IfOk result (λ n. (n ≡ number.entry) × IsOk put) }
{
    put?;
    Ok(number.get())
}

/// Returns 0 after a row was set that has its number already.
fn without_number(set: Result<(), StoreFault>) -> Result<u32, StoreFault>
    ensures { IfOk result (λ n. (n ≡ 0) × IsOk set) }
{
    set?;
    Ok(0)
}

/// Adds a branch, and begins its counts.
fn add_branch<S: Alter>(tx: &mut Transaction<'_, S>, branch: &Branch) -> Result<u32, StoreFault>
    ensures { DoesInside S.Store tx.old.conn tx.new.conn result
        (IsNumbered (model.AddBranch (seen_branch branch.now))) }
{
    let number = next(last_number(tx, SharedTable::Branch))?;
    put_branch(tx, &new_branch(number, branch))?;
    numbered(number, put_counts(tx, number.get()))
}
