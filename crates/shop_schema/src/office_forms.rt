//! The stored form of head office's commands, and the ranges of their values.

ghost use Rattle.std.specs.Prelude.{◌≡◌, false, [], ◌∷◌, ◌++◌, IfOk, OnOk};
ghost use Rattle.shop_schema.specs.Forms.{number_form, text_form, option_form, flag_form, joined, film_form, branch_form, rule_form, office_form, office_command_form, IsOfficeAct};
ghost use Rattle.shop_schema.specs.RowValues.{IsKey, IsRating, IsFeatures, IsFilm, IsBranch, IsStaff};
ghost use Rattle.shop_types.specs.Films.{rating_text, features_text};
ghost use Rattle.shop_types.specs.Seen.{seen_film, seen_branch, seen_staff, seen_rule, seen_office_act, seen_office};

use crate::form::{add_bytes, add_number, add_one, add_pair, add_person, add_text, person_values};
use shop_types::{
    Branch, Features, Film, Minutes, NoMemory, OfficeAct, OfficeCommand, Rating, Rule, Staff, T45,
};
use sql_rows::Bytes;
use std::alloc::Global;

/// Adds how many lengths there are, none or one, and then the minutes.
fn add_minutes(form: &mut Vec<u8>, minutes: Option<Minutes>) -> Result<(), NoMemory>
    ensures { OnOk result (form.new.items ≡ form.old.items ++ option_form minutes) }
{
    match minutes {
        Some(minutes) => {
            add_number(form, 1)?;
            add_number(form, minutes.get())
        }
        None => add_number(form, 0),
    }
}

/// Adds the film's title and description, its language and its category.
fn add_heading(form: &mut Vec<u8>, film: &Film) -> Result<(), NoMemory>
    ensures { OnOk result (form.new.items
        ≡ form.old.items ++ joined
        (text_form film.now.title ∷ text_form film.now.description ∷ number_form film.now.language
        ∷ number_form film.now.category ∷ [])) }
{
    add_text(form, film.title.as_str())?;
    add_text(form, film.description.as_str())?;
    add_number(form, film.language.get())?;
    add_number(form, film.category.get())
}

/// Adds the film's period, rate and replacement cost.
fn add_terms(form: &mut Vec<u8>, film: &Film) -> Result<(), NoMemory>
    ensures { OnOk result (form.new.items ≡ form.old.items ++
        joined (number_form film.now.period ∷ number_form film.now.rate ∷ number_form film.now.replacement ∷ [])) }
{
    add_number(form, film.period.get())?;
    add_number(form, film.rate.get())?;
    add_number(form, film.replacement.get())
}

/// Adds the film's length, rating and features, and that it isn't withdrawn.
fn add_details(form: &mut Vec<u8>, film: &Film) -> Result<(), NoMemory>
    ensures { OnOk result (form.new.items ≡ form.old.items ++
        joined (option_form film.now.minutes ∷ text_form (rating_text film.now.rating)
        ∷ text_form (features_text film.now.features) ∷ flag_form false ∷ [])) }
{
    add_minutes(form, film.minutes)?;
    add_text(form, film.rating.text())?;
    add_text(form, film.features.text())?;
    form.extend_from_slice(&[0])?;
    Ok(())
}

fn add_film(form: &mut Vec<u8>, film: &Film) -> Result<(), NoMemory>
    ensures { OnOk result (form.new.items ≡ form.old.items ++ film_form (seen_film film.now)) }
{
    add_heading(form, film)?;
    add_terms(form, film)?;
    add_details(form, film)?;
    Ok(())
}

/// Adds a new branch, which has no manager.
fn add_branch(form: &mut Vec<u8>, branch: &Branch) -> Result<(), NoMemory>
    ensures { OnOk result (form.new.items ≡ form.old.items ++ branch_form (seen_branch branch.now)) }
{
    add_bytes(form, branch.token.as_bytes())?;
    add_text(form, branch.address.as_str())?;
    add_text(form, branch.postal.as_str())?;
    add_text(form, branch.phone.as_str())?;
    add_number(form, branch.city.get())?;
    add_number(form, 0)
}

fn add_office_act(form: &mut Vec<u8>, act: &OfficeAct) -> Result<(), NoMemory>
    ensures { OnOk result (form.new.items ≡ form.old.items ++ office_form (seen_office_act act.now)) }
{
    match act {
        OfficeAct::Country(name) => add_named(form, 1, name),
        OfficeAct::City(city) => {
            add_named(form, 2, &city.name)?;
            add_number(form, city.country.get())
        }
        OfficeAct::Language(name) => add_named(form, 3, name),
        OfficeAct::Category(name) => add_named(form, 4, name),
        OfficeAct::Actor(actor) => {
            add_named(form, 5, &actor.first)?;
            add_text(form, actor.last.as_str())
        }
        OfficeAct::Film(film) => {
            form.extend_from_slice(&[6])?;
            add_film(form, film)
        }
        OfficeAct::Price { film, rate } => add_pair(form, 7, film.get(), rate.get()),
        OfficeAct::Withdraw(film) => add_one(form, 8, film.get()),
        OfficeAct::Cast { film, actor } => add_pair(form, 9, film.get(), actor.get()),
        OfficeAct::Branch(branch) => {
            form.extend_from_slice(&[10])?;
            add_branch(form, branch)
        }
        OfficeAct::Staff(staff) => {
            add_one(form, 11, staff.branch.get())?;
            add_person(form, &staff.person)
        }
        OfficeAct::Leave(staff) => add_one(form, 12, staff.get()),
        OfficeAct::Manager { branch, staff } => add_pair(form, 13, branch.get(), staff.get()),
        OfficeAct::Rule(rule) => add_rule(form, *rule),
    }
}

/// Adds the act's byte and the rule.
fn add_rule(form: &mut Vec<u8>, rule: Rule) -> Result<(), NoMemory>
    ensures { OnOk result (form.new.items ≡ form.old.items ++ 14 ∷ rule_form (seen_rule rule)) }
{
    match rule {
        Rule::ByCode => form.extend_from_slice(&[14, 0])?,
        Rule::ByComment => form.extend_from_slice(&[14, 1])?,
    }
    Ok(())
}

/// Adds the act's byte and a name.
fn add_named(form: &mut Vec<u8>, act: u8, name: &T45) -> Result<(), NoMemory>
    ensures { OnOk result (form.new.items ≡ form.old.items ++ act ∷ text_form name.now) }
{
    form.extend_from_slice(&[act])?;
    add_text(form, name.as_str())
}

/// Returns the bytes by which a command of head office is kept: all of it but its key. Under one key, two commands
/// have the same bytes exactly if they are one command.
pub fn office_form(alloc: Global, command: &OfficeCommand) -> Result<Bytes, NoMemory>
    ensures { IfOk result (λ form. form ≡ office_command_form (seen_office command.now)) }
{
    let mut form = Vec::new(alloc);
    add_office_act(&mut form, &command.act)?;
    Ok(Bytes::new(form))
}

// ---- ranges

#[tactic(auto, using(crate::proofs::ShopTables::rating_fits))]
fn rating_values(rating: Rating)
    ensures { IsRating (rating_text rating) }
{}

#[tactic(auto, using(crate::proofs::CellTexts::features_are))]
fn features_values(features: Features)
    ensures { IsFeatures (features_text features) }
{}

fn film_values(film: &Film)
    ensures { IsFilm (seen_film film.now) }
{
    let _title = film.title.as_str();
    let _description = film.description.as_str();
    let _language = film.language.get();
    let _category = film.category.get();
    let _period = film.period.get();
    let _rate = film.rate.get();
    let _replacement = film.replacement.get();
    if let Some(minutes) = film.minutes {
        let _minutes = minutes.get();
    }
    rating_values(film.rating);
    features_values(film.features);
}

fn branch_values(branch: &Branch)
    ensures { IsBranch (seen_branch branch.now) }
{
    let _token = branch.token.as_bytes();
    let _address = branch.address.as_str();
    let _postal = branch.postal.as_str();
    let _phone = branch.phone.as_str();
    let _city = branch.city.get();
}

fn staff_values(staff: &Staff)
    ensures { IsStaff (seen_staff staff.now) }
{
    let _branch = staff.branch.get();
    person_values(&staff.person);
}

fn office_act_values(act: &OfficeAct)
    ensures { IsOfficeAct (seen_office_act act.now) }
{
    match act {
        OfficeAct::Country(name) | OfficeAct::Language(name) | OfficeAct::Category(name) => {
            let _name = name.as_str();
        }
        OfficeAct::City(city) => {
            let _name = city.name.as_str();
            let _country = city.country.get();
        }
        OfficeAct::Actor(actor) => {
            let _first = actor.first.as_str();
            let _last = actor.last.as_str();
        }
        OfficeAct::Film(film) => film_values(film),
        OfficeAct::Price { film, rate } => {
            let _film = film.get();
            let _rate = rate.get();
        }
        OfficeAct::Withdraw(film) => {
            let _film = film.get();
        }
        OfficeAct::Cast { film, actor } => {
            let _film = film.get();
            let _actor = actor.get();
        }
        OfficeAct::Branch(branch) => branch_values(branch),
        OfficeAct::Staff(staff) => staff_values(staff),
        OfficeAct::Leave(staff) => {
            let _staff = staff.get();
        }
        OfficeAct::Manager { branch, staff } => {
            let _branch = branch.get();
            let _staff = staff.get();
        }
        OfficeAct::Rule(_) => {}
    }
}

/// Shows that tables can hold the values of a command of head office. This is a law: it does nothing.
pub fn office_values(command: &OfficeCommand)
    ensures key { IsKey (seen_office command.now).key }
    ensures act { IsOfficeAct (seen_office command.now).act }
{
    let _key = command.key.as_str();
    office_act_values(&command.act);
}
