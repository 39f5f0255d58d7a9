//! Decides on a command of a branch.

ghost use Rattle.std.specs.Prelude.{◌≡◌, ℕ, ◌+◌, ◌&&◌, nat_lt, Some, List, length, map, option_map};
ghost use Rattle.std.specs.List.{list_any};
ghost use Rattle.shop_model.specs.Calendar as calendar;
ghost use Rattle.shop_model.specs.Rows.{at};
ghost use Rattle.shop_model.specs.Values as model;
ghost use Rattle.shop_model.specs.Shop.{Catalogue, Shop};
ghost use Rattle.shop_model.specs.Verdict.{first, verdict, refusals, is_before, is_full, staff_is};
ghost use Rattle.shop_model.specs.Acts.{new_copies};
ghost use Rattle.shop_model.specs.Books.{head};
ghost use Rattle.shop_types.specs.Seen.{seen_act, seen_command};
ghost use Rattle.shop_types.specs.Verdicts.{seen_post, post_of, verdict_by};
ghost use Rattle.shop_types.specs.Decisions.{IsVerdict};
ghost use Rattle.branch_core.specs.Agreed.{Agrees, ActAgrees};

use crate::acts::act_refusal;
use crate::consignments::new_from;
use crate::{Found, RowsFound, stock};
use shop_types::{Act, BranchNo, Change, Command, Limits, Moment, Refusal, StaffFound};

/// Accepts a branch's command, repeats its kept reply, or fails with the first refusal that holds. Takes no memory.
pub fn decide<'a>(
    branch: BranchNo,
    command: &Command,
    found: &Found<'a>,
    limits: Limits,
) -> Result<Change<'a>, Refusal>
    ensures { (rules : model.Rules) (catalogue : Catalogue) (shop : Shop) → rules.commands ≡ limits.commands
        → rules.copies ≡ limits.copies → Agrees rules catalogue shop (seen_command command.now) found.now
        → IsVerdict (verdict rules branch catalogue shop (seen_command command.now)) result }
{
    match found.kept {
        Some(kept) => {
            if kept.is_same {
                Ok(Change::Again(kept.reply))
            } else {
                Err(Refusal::KeyUsed)
            }
        }
        None => match first_refusal(branch, command, found, limits) {
            Some(refusal) => Err(refusal),
            None => Ok(Change::Accepted),
        },
    }
}

/// Returns the first refusal of a command whose key isn't kept.
fn first_refusal(
    branch: BranchNo,
    command: &Command,
    found: &Found<'_>,
    limits: Limits,
) -> Option<Refusal>
    ensures { (rules : model.Rules) (catalogue : Catalogue) (shop : Shop) → rules.commands ≡ limits.commands
        → rules.copies ≡ limits.copies → Agrees rules catalogue shop (seen_command command.now) found.now
        → verdict_by result ≡ Some (first (refusals rules branch catalogue shop (seen_command command.now))) }
{
    if is_full(&command.act, found, limits) {
        Some(Refusal::Full)
    } else if is_before(command.at, found.last) {
        Some(Refusal::MomentBack)
    } else if !works_at(found.staff, branch) {
        Some(Refusal::NoStaff)
    } else {
        act_refusal(branch, &command.act, &found.rows)
    }
}

/// Returns whether the branch has as many kept rows as it may, or would have more copies than it may.
fn is_full(act: &Act, found: &Found<'_>, limits: Limits) -> bool
    ensures { (rules : model.Rules) (catalogue : Catalogue) (shop : Shop) (command : model.Command)
        → command.act ≡ seen_act act.now → rules.commands ≡ limits.commands → rules.copies ≡ limits.copies
        → Agrees rules catalogue shop command found.now → result ≡ is_full rules shop command.act }
{
    limits.commands() <= found.keys || has_no_room(act, &found.rows, limits)
}

/// Returns whether the act makes copies, and more than the branch may still have.
fn has_no_room(act: &Act, rows: &RowsFound, limits: Limits) -> bool
    ensures { (rules : model.Rules) (catalogue : Catalogue) (shop : Shop) (moment : calendar.Moment)
        → rules.copies ≡ limits.copies → ActAgrees rules catalogue shop moment (seen_act act.now) rows.now
        → result ≡ (nat_lt 0 (new_copies rules shop (seen_act act.now)) && nat_lt rules.copies
        (length shop.copies + new_copies rules shop (seen_act act.now))) }
{
    let new = new_copies(act, rows);
    0 < new && u64::from(limits.copies()) < u64::from(rows.copies) + u64::from(new)
}

/// Returns how many copies the act makes.
fn new_copies(act: &Act, rows: &RowsFound) -> u32
    ensures { (rules : model.Rules) (catalogue : Catalogue) (shop : Shop) (moment : calendar.Moment)
        → ActAgrees rules catalogue shop moment (seen_act act.now) rows.now
        → result ≡ new_copies rules shop (seen_act act.now) }
{
    match act {
        Act::Import { .. } => stock::new_copies(&rows.stock),
        Act::Receive { missing, .. } => new_from(&rows.arrival, missing.as_slice()),
        _ => 0,
    }
}

/// Returns whether there is a last moment, and the moment is before it.
fn is_before(moment: Moment, last: Option<Moment>) -> bool
    ensures { result ≡ is_before moment last }
{
    match last {
        Some(last) => moment.is_earlier(last),
        None => false,
    }
}

/// Returns whether the member of staff is there, works at the branch and hasn't left.
#[tactic(auto, using(shop_model::proofs::FoundLemmas::at_one))]
fn works_at(staff: Option<StaffFound>, branch: BranchNo) -> bool
    ensures { (rows : List model.Staff) (n : ℕ) → option_map seen_post staff ≡ head (map post_of (at n rows))
        → result ≡ list_any (staff_is branch) (at n rows) }
{
    match staff {
        Some(staff) => staff.branch == branch && !staff.gone,
        None => false,
    }
}
