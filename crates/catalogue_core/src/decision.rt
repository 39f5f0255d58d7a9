//! Decides on a command of head office.

ghost use Rattle.std.specs.Prelude.{◌≡◌, Some};
ghost use Rattle.shop_model.specs.Values as model;
ghost use Rattle.shop_model.specs.Shop.{Catalogue};
ghost use Rattle.shop_model.specs.Verdict.{first, office_verdict};
ghost use Rattle.shop_model.specs.OfficeActs.{office_refusals};
ghost use Rattle.shop_types.specs.Seen.{seen_office, seen_office_act};
ghost use Rattle.shop_types.specs.Verdicts.{verdict_by};
ghost use Rattle.shop_types.specs.Decisions.{IsVerdict};
ghost use Rattle.catalogue_core.specs.Shares.{Shares, ActShares};
ghost use Rattle.catalogue_core.specs.Decided.{fresh_refusals};

use crate::acts::{
    branch_refusal, cast_refusal, leave_refusal, manager_refusal, name_refusal, price_refusal,
    row_refusal, rule_refusal, staff_refusal, withdraw_refusal,
};
use crate::{Shared, SharedRows};
use shop_types::{Change, Limits, OfficeAct, OfficeCommand, Refusal, Token};

/// Accepts head office's command, repeats its kept reply, or fails with the first refusal that holds. Takes no memory.
pub fn decide_office<'a>(
    command: &OfficeCommand,
    shared: &Shared<'a>,
    limits: Limits,
) -> Result<Change<'a>, Refusal>
    ensures { (rules : model.Rules) (catalogue : Catalogue) → rules.commands ≡ limits.commands
        → Shares catalogue (seen_office command.now) shared.now
        → IsVerdict (office_verdict rules catalogue (seen_office command.now)) result }
{
    match shared.kept {
        Some(kept) => {
            if kept.is_same {
                Ok(Change::Again(kept.reply))
            } else {
                Err(Refusal::KeyUsed)
            }
        }
        None => match first_refusal(&command.act, shared, limits) {
            Some(refusal) => Err(refusal),
            None => Ok(Change::Accepted),
        },
    }
}

/// Returns the first refusal of a command whose key isn't kept.
fn first_refusal(act: &OfficeAct, shared: &Shared, limits: Limits) -> Option<Refusal>
    ensures { (rules : model.Rules) (catalogue : Catalogue) (command : model.OfficeCommand)
        → command.act ≡ seen_office_act act.now → rules.commands ≡ limits.commands
        → Shares catalogue command shared.now
        → verdict_by result ≡ Some (first (fresh_refusals rules catalogue command)) }
{
    if limits.commands() <= shared.keys {
        Some(Refusal::Full)
    } else {
        act_refusal(act, &shared.office_token, &shared.rows)
    }
}

/// Returns the first refusal that depends on what the command does.
fn act_refusal(act: &OfficeAct, office_token: &Token, rows: &SharedRows) -> Option<Refusal>
    ensures { (catalogue : Catalogue) → office_token.now ≡ catalogue.office_token
        → ActShares catalogue (seen_office_act act.now) rows.now
        → verdict_by result ≡ Some (first (office_refusals catalogue (seen_office_act act.now))) }
{
    match act {
        OfficeAct::Country(_) | OfficeAct::Language(_) | OfficeAct::Category(_) => {
            name_refusal(rows.is_named)
        }
        OfficeAct::City(_) => row_refusal(rows.has_country),
        OfficeAct::Actor(_) => None,
        OfficeAct::Film(_) => row_refusal(rows.has_language && rows.has_category),
        OfficeAct::Price { .. } => price_refusal(rows.film),
        OfficeAct::Withdraw(_) => withdraw_refusal(rows.film),
        OfficeAct::Cast { .. } => cast_refusal(rows.film, rows.has_actor, rows.has_cast),
        OfficeAct::Branch(branch) => {
            branch_refusal(branch.token == *office_token, rows.has_token, rows.has_city)
        }
        OfficeAct::Staff(_) => staff_refusal(rows.branch, rows.has_city),
        OfficeAct::Leave(_) => leave_refusal(rows.staff),
        OfficeAct::Manager { branch, staff } => {
            manager_refusal(*branch, *staff, rows.branch, rows.staff)
        }
        OfficeAct::Rule(_) => rule_refusal(rows.is_chosen),
    }
}
