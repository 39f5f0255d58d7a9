//! Finds the first refusal of a command of head office by what it does, if its key is new.

ghost use Rattle.std.specs.Prelude.{◌≡◌, ℕ, ◌==◌, not, Some, [], ◌∷◌, option_map};
ghost use Rattle.std.specs.Str.{bytes_eq};
ghost use Rattle.shop_model.specs.Rows.{lacks};
ghost use Rattle.shop_model.specs.Refusals.{Already, NoSharedRow};
ghost use Rattle.shop_model.specs.Values.{Cast, Branch, Staff, PriceFilm, WithdrawFilm, AddCast, AddBranch, AddStaff, StaffLeaves, SetManager};
ghost use Rattle.shop_model.specs.Shop.{Catalogue, same_option};
ghost use Rattle.shop_model.specs.Verdict.{first};
ghost use Rattle.shop_model.specs.OfficeActs.{office_refusals};
ghost use Rattle.shop_types.specs.Verdicts.{verdict_by, seen_post};
ghost use Rattle.catalogue_core.specs.Shares.{film_at, branch_at, staff_at, is_token, is_cast, seen_branch_found};

use crate::BranchFound;
use shop_types::{BranchNo, Refusal, StaffFound, StaffNo};

/// Returns the refusal of a new row, if its name is taken.
pub fn name_refusal(is_named: bool) -> Option<Refusal>
    ensures { verdict_by result ≡ Some (first ((Already, is_named) ∷ [])) }
{
    if is_named {
        Some(Refusal::Already)
    } else {
        None
    }
}

/// Returns the refusal of a choice of the rule for balances.
pub fn rule_refusal(is_chosen: bool) -> Option<Refusal>
    ensures { verdict_by result ≡ Some (first ((Already, is_chosen) ∷ [])) }
{
    if is_chosen {
        Some(Refusal::Already)
    } else {
        None
    }
}

/// Returns the refusal of a new row that names another row, if that row isn't there.
pub fn row_refusal(is_there: bool) -> Option<Refusal>
    ensures { verdict_by result ≡ Some (first ((NoSharedRow, not is_there) ∷ [])) }
{
    if is_there {
        None
    } else {
        Some(Refusal::NoSharedRow)
    }
}

/// Returns the first refusal of a film's new price. The present price may be set again.
pub fn price_refusal(film: Option<bool>) -> Option<Refusal>
    ensures { (catalogue : Catalogue) (f rate : ℕ) → film ≡ film_at catalogue f
        → verdict_by result ≡ Some (first (office_refusals catalogue (PriceFilm f rate))) }
{
    match film {
        None => Some(Refusal::NoFilm),
        Some(_) => None,
    }
}

/// Returns the first refusal of taking a film out of the catalogue.
pub fn withdraw_refusal(film: Option<bool>) -> Option<Refusal>
    ensures { (catalogue : Catalogue) (f : ℕ) → film ≡ film_at catalogue f
        → verdict_by result ≡ Some (first (office_refusals catalogue (WithdrawFilm f))) }
{
    match film {
        None => Some(Refusal::NoFilm),
        Some(true) => Some(Refusal::Already),
        Some(false) => None,
    }
}

/// Returns the first refusal of putting an actor into a film's cast.
pub fn cast_refusal(film: Option<bool>, has_actor: bool, has_cast: bool) -> Option<Refusal>
    ensures { (catalogue : Catalogue) (cast : Cast) → film ≡ film_at catalogue cast.film
        → has_actor ≡ not (lacks catalogue.actors cast.actor) → has_cast ≡ is_cast catalogue cast
        → verdict_by result ≡ Some (first (office_refusals catalogue (AddCast cast))) }
{
    if film.is_none() {
        Some(Refusal::NoFilm)
    } else if !has_actor {
        Some(Refusal::NoSharedRow)
    } else if has_cast {
        Some(Refusal::Already)
    } else {
        None
    }
}

/// Returns the first refusal of a new branch. Head office or another branch may have its token already.
pub fn branch_refusal(is_office: bool, has_token: bool, has_city: bool) -> Option<Refusal>
    ensures { (catalogue : Catalogue) (branch : Branch) → is_office ≡ bytes_eq branch.token catalogue.office_token
        → has_token ≡ is_token catalogue branch.token → has_city ≡ not (lacks catalogue.cities branch.city)
        → verdict_by result ≡ Some (first (office_refusals catalogue (AddBranch branch))) }
{
    if is_office || has_token {
        Some(Refusal::TokenTaken)
    } else if !has_city {
        Some(Refusal::NoSharedRow)
    } else {
        None
    }
}

/// Returns the first refusal of a new member of staff.
pub fn staff_refusal(branch: Option<BranchFound>, has_city: bool) -> Option<Refusal>
    ensures { (catalogue : Catalogue) (staff : Staff)
        → option_map seen_branch_found branch ≡ branch_at catalogue staff.branch
        → has_city ≡ not (lacks catalogue.cities staff.person.city)
        → verdict_by result ≡ Some (first (office_refusals catalogue (AddStaff staff))) }
{
    if branch.is_none() {
        Some(Refusal::NoBranch)
    } else if !has_city {
        Some(Refusal::NoSharedRow)
    } else {
        None
    }
}

/// Returns the first refusal of a command by which a member of staff leaves.
pub fn leave_refusal(staff: Option<StaffFound>) -> Option<Refusal>
    ensures { (catalogue : Catalogue) (s : ℕ) → option_map seen_post staff ≡ staff_at catalogue s
        → verdict_by result ≡ Some (first (office_refusals catalogue (StaffLeaves s))) }
{
    match staff {
        None => Some(Refusal::NoStaff),
        Some(staff) => {
            if staff.gone {
                Some(Refusal::Already)
            } else {
                None
            }
        }
    }
}

/// Returns the first refusal of making a member of staff the manager of a branch. Either may not be there.
pub fn manager_refusal(
    number: BranchNo,
    manager: StaffNo,
    branch: Option<BranchFound>,
    staff: Option<StaffFound>,
) -> Option<Refusal>
    ensures { (catalogue : Catalogue) → option_map seen_branch_found branch ≡ branch_at catalogue number
        → option_map seen_post staff ≡ staff_at catalogue manager
        → verdict_by result ≡ Some (first (office_refusals catalogue (SetManager number manager))) }
{
    let Some(staff) = staff else {
        return Some(Refusal::NoStaff);
    };
    if staff.gone {
        return Some(Refusal::NoStaff);
    }
    let Some(branch) = branch else {
        return Some(Refusal::NoBranch);
    };
    if !works_at(staff, number) {
        return Some(Refusal::NoBranch);
    }
    if is_managed_by(branch, manager) {
        return Some(Refusal::Already);
    }
    None
}

fn works_at(staff: StaffFound, branch: BranchNo) -> bool
    ensures { result ≡ (staff.branch == branch) }
{
    staff.branch == branch
}

fn is_managed_by(branch: BranchFound, staff: StaffNo) -> bool
    ensures { result ≡ same_option branch.manager (Some staff) }
{
    match branch.manager {
        Some(manager) => manager == staff,
        None => false,
    }
}
