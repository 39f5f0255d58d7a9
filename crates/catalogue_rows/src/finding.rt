//! Finds in the tables the shared rows that a command of head office names.

ghost use Rattle.std.specs.Prelude.{◌≡◌, option_map, Ok, IfOk};
ghost use Rattle.sql_rows.specs.Calls.{DoesWithin};
ghost use Rattle.shop_model.specs.Shop.{same_rule};
ghost use Rattle.shop_model.specs.Values as model;
ghost use Rattle.shop_types.specs.Seen.{seen_film, seen_branch, seen_staff, seen_rule, seen_office_act, seen_office};
ghost use Rattle.shop_ledger.specs.Calls.{Finds};
ghost use Rattle.catalogue_core.specs.Shares.{Shares, seen_branch_found};
ghost use Rattle.catalogue_rows.specs.Found.{shared_of, IsKeptFor, FindsFor};

use catalogue_core::{BranchFound, SharedRows};
use shop_ledger::{Count, count_of};
use shop_store::branches::branch_manager;
use shop_store::chain::{office_token, rule_at};
use shop_store::films::film_withdrawn;
use shop_store::rows::{
    has_actor, has_cast, has_category, has_city, has_country, has_language, has_token, is_category,
    is_country, is_language,
};
use shop_store::staff::staff_at;
use shop_types::{
    ActorNo, Branch, BranchNo, Film, FilmNo, OfficeAct, OfficeCommand, Rule, Staff, StaffFound,
    StaffNo, Token,
};
use sql_rows::StoreFault;
use sqlite::{Alter, Transaction};

/// Head office's count and token, and the rows that its command names.
#[derive(Clone, Copy)]
pub struct SharedFound {
    /// How many kept rows head office has.
    pub keys: u32,
    pub office_token: Token,
    pub rows: SharedRows,
}

/// Finds what a decision on head office's command reads, except what is kept under the command's key.
pub fn find<S: Alter>(
    tx: &mut Transaction<'_, S>,
    command: &OfficeCommand,
) -> Result<SharedFound, StoreFault>
    ensures { DoesWithin S.Store tx.old.conn tx.new.conn result
        (λ found. Finds (λ books. (kept : _) → IsKeptFor (seen_office command.now) kept books
        → Shares books.catalogue (seen_office command.now) (shared_of kept found))) }
{
    let keys = count_of(tx, Count::OfficeKeys)?;
    let token = office_token(tx)?;
    let rows = find_rows(tx, &command.act)?;
    Ok(SharedFound {
        keys,
        office_token: token,
        rows,
    })
}

/// Finds the rows that an act names.
fn find_rows<S: Alter>(
    tx: &mut Transaction<'_, S>,
    act: &OfficeAct,
) -> Result<SharedRows, StoreFault>
    ensures { DoesWithin S.Store tx.old.conn tx.new.conn result
        (FindsFor (seen_office_act act.now)) }
{
    match act {
        OfficeAct::Country(name) => with_name(is_country(tx, name.as_str())),
        OfficeAct::City(city) => with_country(has_country(tx, city.country)),
        OfficeAct::Language(name) => with_name(is_language(tx, name.as_str())),
        OfficeAct::Category(name) => with_name(is_category(tx, name.as_str())),
        OfficeAct::Actor(_) => Ok(SharedRows::none()),
        OfficeAct::Film(film) => for_film(tx, film),
        OfficeAct::Price { film, .. } => with_film(film_withdrawn(tx, *film)),
        OfficeAct::Withdraw(film) => with_film(film_withdrawn(tx, *film)),
        OfficeAct::Cast { film, actor } => for_cast(tx, *film, *actor),
        OfficeAct::Branch(branch) => for_branch(tx, branch),
        OfficeAct::Staff(staff) => for_staff(tx, staff),
        OfficeAct::Leave(staff) => with_staff(staff_at(tx, *staff)),
        OfficeAct::Manager { branch, staff } => for_manager(tx, *branch, *staff),
        OfficeAct::Rule(rule) => for_rule(tx, *rule),
    }
}

/// Finds whether the language and the category of a new film are there.
fn for_film<S: Alter>(tx: &mut Transaction<'_, S>, film: &Film) -> Result<SharedRows, StoreFault>
    ensures { DoesWithin S.Store tx.old.conn tx.new.conn result
        (FindsFor (model.AddFilm (seen_film film.now))) }
{
    let has_language = has_language(tx, film.language)?;
    let has_category = has_category(tx, film.category)?;
    Ok(SharedRows {
        has_language,
        has_category,
        ..SharedRows::none()
    })
}

/// Finds whether a film and an actor for its cast are there, and whether the actor is in the cast already.
fn for_cast<S: Alter>(
    tx: &mut Transaction<'_, S>,
    film: FilmNo,
    actor: ActorNo,
) -> Result<SharedRows, StoreFault>
    ensures { DoesWithin S.Store tx.old.conn tx.new.conn result
        (FindsFor (model.AddCast (record { film = film; actor = actor }))) }
{
    let withdrawn = film_withdrawn(tx, film)?;
    let has_actor = has_actor(tx, actor)?;
    let has_cast = has_cast(tx, film, actor)?;
    Ok(SharedRows {
        film: withdrawn,
        has_actor,
        has_cast,
        ..SharedRows::none()
    })
}

/// Finds whether a branch has the token of a new branch already, and whether the city of the new branch is there.
fn for_branch<S: Alter>(
    tx: &mut Transaction<'_, S>,
    branch: &Branch,
) -> Result<SharedRows, StoreFault>
    ensures { DoesWithin S.Store tx.old.conn tx.new.conn result
        (FindsFor (model.AddBranch (seen_branch branch.now))) }
{
    let has_token = has_token(tx, &branch.token)?;
    let has_city = has_city(tx, branch.city)?;
    Ok(SharedRows {
        has_token,
        has_city,
        ..SharedRows::none()
    })
}

/// Finds whether the branch and the city of a new member of staff are there.
fn for_staff<S: Alter>(tx: &mut Transaction<'_, S>, staff: &Staff) -> Result<SharedRows, StoreFault>
    ensures { DoesWithin S.Store tx.old.conn tx.new.conn result
        (FindsFor (model.AddStaff (seen_staff staff.now))) }
{
    let branch = branch_of(branch_manager(tx, staff.branch)?);
    let has_city = has_city(tx, staff.person.city)?;
    Ok(SharedRows {
        branch,
        has_city,
        ..SharedRows::none()
    })
}

/// Finds whether a branch and its new manager are there.
fn for_manager<S: Alter>(
    tx: &mut Transaction<'_, S>,
    branch: BranchNo,
    staff: StaffNo,
) -> Result<SharedRows, StoreFault>
    ensures { DoesWithin S.Store tx.old.conn tx.new.conn result
        (FindsFor (model.SetManager branch staff)) }
{
    let managed = branch_of(branch_manager(tx, branch)?);
    let manager = staff_at(tx, staff)?;
    Ok(SharedRows {
        branch: managed,
        staff: manager,
        ..SharedRows::none()
    })
}

/// Finds whether a rule is chosen already.
fn for_rule<S: Alter>(tx: &mut Transaction<'_, S>, rule: Rule) -> Result<SharedRows, StoreFault>
    ensures { DoesWithin S.Store tx.old.conn tx.new.conn result
        (FindsFor (model.ChooseRule (seen_rule rule))) }
{
    let chosen = rule_at(tx)?;
    Ok(SharedRows {
        is_chosen: is_same(chosen, rule),
        ..SharedRows::none()
    })
}

fn is_same(first: Rule, second: Rule) -> bool
    ensures { result ≡ same_rule (seen_rule first) (seen_rule second) }
{
    match (first, second) {
        (Rule::ByCode, Rule::ByCode) => true,
        (Rule::ByComment, Rule::ByComment) => true,
        _ => false,
    }
}

/// Returns whether a country, language or category has the name of a new one.
fn with_name(is_named: Result<bool, StoreFault>) -> Result<SharedRows, StoreFault>
    ensures { IfOk result (λ rows. is_named ≡ Ok rows.is_named) }
{
    Ok(SharedRows {
        is_named: is_named?,
        ..SharedRows::none()
    })
}

/// Returns whether the country of a new city is there.
fn with_country(has_country: Result<bool, StoreFault>) -> Result<SharedRows, StoreFault>
    ensures { IfOk result (λ rows. has_country ≡ Ok rows.has_country) }
{
    Ok(SharedRows {
        has_country: has_country?,
        ..SharedRows::none()
    })
}

/// Returns whether the film that gets a price or is withdrawn is there, and whether it is withdrawn already.
fn with_film(film: Result<Option<bool>, StoreFault>) -> Result<SharedRows, StoreFault>
    ensures { IfOk result (λ rows. film ≡ Ok rows.film) }
{
    Ok(SharedRows {
        film: film?,
        ..SharedRows::none()
    })
}

/// Returns whether the member of staff who leaves is there, and has left already.
fn with_staff(staff: Result<Option<StaffFound>, StoreFault>) -> Result<SharedRows, StoreFault>
    ensures { IfOk result (λ rows. staff ≡ Ok rows.staff) }
{
    Ok(SharedRows {
        staff: staff?,
        ..SharedRows::none()
    })
}

/// Returns what was found of a branch: its manager, if the branch is there.
fn branch_of(manager: Option<Option<StaffNo>>) -> Option<BranchFound>
    ensures { option_map seen_branch_found result ≡ manager }
{
    match manager {
        Some(manager) => Some(BranchFound { manager }),
        None => None,
    }
}
