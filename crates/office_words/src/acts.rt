ghost use Rattle.std.specs.Prelude.{◌≡◌};
ghost use Rattle.word_tables.specs.Given.{values_of, Reads};
ghost use Rattle.office_words.specs.Acts.{city_of, actor_of, facts_of, film_of, contact_of, branch_of};
ghost use Rattle.office_words.specs.Acts.{person_of, staff_of, plain_act_of, place_act_of, office_act_of, command_of, serve_of, custody_of, reading_of, act_of};

use crate::given;
use clap::ArgMatches;
use shop_types::{
    Actor, Amount, Branch, CategoryNo, City, Features, Film, L45, LanguageNo, LineAct, Mark,
    Minutes, OfficeAct, OfficeAsk, OfficeCommand, Period, Person, Rate, Rating, Staff, T128, Usage,
};
use std::alloc::Global;
use word_tables::unread;

/// What is wrong with a name that no subcommand has.
pub(crate) const NO_COMMAND: &str = "a subcommand has to be named; --help lists them";

const PORT: &str = "a port, 1 to 65535";

const CONNECTIONS: &str = "how many, 1 to 1000000";

fn city(alloc: Global, given: &ArgMatches<'_>) -> Result<City, Usage>
    ensures { Reads result (city_of (values_of given.now)) }
{
    let country = given::row(alloc, given, "country")?;
    Ok(City {
        name: given::text(alloc, given, "name")?,
        country,
    })
}

fn actor(alloc: Global, given: &ArgMatches<'_>) -> Result<Actor, Usage>
    ensures { Reads result (actor_of (values_of given.now)) }
{
    Ok(Actor {
        first: given::text(alloc, given, "first")?,
        last: given::text(alloc, given, "last")?,
    })
}

/// What a film has beside its texts.
#[derive(Clone, Copy)]
struct FilmFacts {
    language: LanguageNo,
    category: CategoryNo,
    period: Period,
    rate: Rate,
    replacement: Amount,
    minutes: Option<Minutes>,
    rating: Rating,
    features: Features,
}

fn film_facts(alloc: Global, given: &ArgMatches<'_>) -> Result<FilmFacts, Usage>
    ensures { Reads result (facts_of (values_of given.now)) }
{
    Ok(FilmFacts {
        language: given::row(alloc, given, "language")?,
        category: given::row(alloc, given, "category")?,
        period: given::period(alloc, given)?,
        rate: given::rate(alloc, given)?,
        replacement: given::replacement(alloc, given)?,
        minutes: given::minutes(alloc, given)?,
        rating: given::rating(alloc, given)?,
        features: given::features(alloc, given)?,
    })
}

fn film(alloc: Global, given: &ArgMatches<'_>) -> Result<Film, Usage>
    ensures { Reads result (film_of (values_of given.now)) }
{
    let facts = film_facts(alloc, given)?;
    Ok(Film {
        title: given::text(alloc, given, "title")?,
        description: given::text(alloc, given, "description")?,
        language: facts.language,
        category: facts.category,
        period: facts.period,
        rate: facts.rate,
        replacement: facts.replacement,
        minutes: facts.minutes,
        rating: facts.rating,
        features: facts.features,
    })
}

/// Where a branch or a person is found.
#[derive(Drop)]
struct Contact {
    address: T128,
    postal: L45,
    phone: L45,
}

fn contact_details(alloc: Global, given: &ArgMatches<'_>) -> Result<Contact, Usage>
    ensures { Reads result (contact_of (values_of given.now)) }
{
    Ok(Contact {
        address: given::text(alloc, given, "address")?,
        postal: given::text(alloc, given, "postal")?,
        phone: given::text(alloc, given, "phone")?,
    })
}

fn branch(alloc: Global, given: &ArgMatches<'_>) -> Result<Branch, Usage>
    ensures { Reads result (branch_of (values_of given.now)) }
{
    let token = given::token(alloc, given)?;
    let city = given::row(alloc, given, "city")?;
    let found = contact_details(alloc, given)?;
    Ok(Branch {
        token,
        address: found.address,
        postal: found.postal,
        phone: found.phone,
        city,
    })
}

fn person(alloc: Global, given: &ArgMatches<'_>) -> Result<Person, Usage>
    ensures { Reads result (person_of (values_of given.now)) }
{
    let city = given::row(alloc, given, "city")?;
    let names = actor(alloc, given)?;
    let found = contact_details(alloc, given)?;
    Ok(Person {
        first: names.first,
        last: names.last,
        address: found.address,
        postal: found.postal,
        phone: found.phone,
        city,
    })
}

fn staff(alloc: Global, given: &ArgMatches<'_>) -> Result<Staff, Usage>
    ensures { Reads result (staff_of (values_of given.now)) }
{
    let branch = given::row(alloc, given, "branch")?;
    Ok(Staff {
        branch,
        person: person(alloc, given)?,
    })
}

/// Returns what a command of this name does that takes numbers alone, or a rule.
fn plain_act(alloc: Global, name: &str, given: &ArgMatches<'_>) -> Result<OfficeAct, Usage>
    ensures { Reads result (plain_act_of name.now (values_of given.now)) }
{
    match name {
        "film-price" => Ok(OfficeAct::Price {
            film: given::row(alloc, given, "film")?,
            rate: given::rate(alloc, given)?,
        }),
        "film-withdraw" => Ok(OfficeAct::Withdraw(given::row(alloc, given, "film")?)),
        "cast-add" => Ok(OfficeAct::Cast {
            film: given::row(alloc, given, "film")?,
            actor: given::row(alloc, given, "actor")?,
        }),
        "staff-leave" => Ok(OfficeAct::Leave(given::row(alloc, given, "staff")?)),
        "manager-set" => Ok(OfficeAct::Manager {
            branch: given::row(alloc, given, "branch")?,
            staff: given::row(alloc, given, "staff")?,
        }),
        "balance-rule" => Ok(OfficeAct::Rule(given::rule(alloc, given)?)),
        _ => Err(unread(alloc, NO_COMMAND)),
    }
}

/// Returns what a command of this name does that adds a branch or staff, or takes numbers alone or a rule.
fn place_act(alloc: Global, name: &str, given: &ArgMatches<'_>) -> Result<OfficeAct, Usage>
    ensures { Reads result (place_act_of name.now (values_of given.now)) }
{
    match name {
        "branch-add" => Ok(OfficeAct::Branch(branch(alloc, given)?)),
        "staff-add" => Ok(OfficeAct::Staff(staff(alloc, given)?)),
        _ => plain_act(alloc, name, given),
    }
}

/// Returns what a command of this name does to the catalogue.
fn office_act(alloc: Global, name: &str, given: &ArgMatches<'_>) -> Result<OfficeAct, Usage>
    ensures { Reads result (office_act_of name.now (values_of given.now)) }
{
    match name {
        "country-add" => Ok(OfficeAct::Country(given::text(alloc, given, "name")?)),
        "city-add" => Ok(OfficeAct::City(city(alloc, given)?)),
        "language-add" => Ok(OfficeAct::Language(given::text(alloc, given, "name")?)),
        "category-add" => Ok(OfficeAct::Category(given::text(alloc, given, "name")?)),
        "actor-add" => Ok(OfficeAct::Actor(actor(alloc, given)?)),
        "film-add" => Ok(OfficeAct::Film(film(alloc, given)?)),
        _ => place_act(alloc, name, given),
    }
}

fn command(alloc: Global, name: &str, given: &ArgMatches<'_>) -> Result<LineAct, Usage>
    ensures { Reads result (command_of name.now (values_of given.now)) }
{
    Ok(LineAct::Office(OfficeCommand {
        key: given::key(alloc, given)?,
        act: office_act(alloc, name, given)?,
    }))
}

fn serve(alloc: Global, given: &ArgMatches<'_>) -> Result<LineAct, Usage>
    ensures { Reads result (serve_of (values_of given.now)) }
{
    let port = given::u16_of(given, "port");
    let connections = given::u32_of(given, "connections");
    Ok(LineAct::Serve {
        port: given::of_kind(alloc, port, "port", PORT)?,
        connections: given::of_kind(alloc, connections, "connections", CONNECTIONS)?,
    })
}

/// Returns the reading of where the copy of a mark is.
fn custody(alloc: Global, given: &ArgMatches<'_>) -> Result<OfficeAsk, Usage>
    ensures { Reads result (custody_of (values_of given.now)) }
{
    Ok(OfficeAsk::Custody(Mark {
        branch: given::row(alloc, given, "branch")?,
        copy: given::row(alloc, given, "copy")?,
    }))
}

/// Returns what a subcommand of this name reads, or does as a command.
fn reading(alloc: Global, name: &str, given: &ArgMatches<'_>) -> Result<LineAct, Usage>
    ensures { Reads result (reading_of name.now (values_of given.now)) }
{
    match name {
        "sales" => Ok(LineAct::OfficeLook(OfficeAsk::Sales)),
        "custody" => Ok(LineAct::OfficeLook(custody(alloc, given)?)),
        "transit" => Ok(LineAct::OfficeLook(OfficeAsk::Transit)),
        "audit" => Ok(LineAct::OfficeLook(OfficeAsk::Audit)),
        _ => command(alloc, name, given),
    }
}

/// Returns what a subcommand of this name asks for.
pub(crate) fn act(alloc: Global, name: &str, given: &ArgMatches<'_>) -> Result<LineAct, Usage>
    ensures { Reads result (act_of name.now (values_of given.now)) }
{
    match name {
        "init" => Ok(LineAct::Init(given::token(alloc, given)?)),
        "migrate" => Ok(LineAct::Migrate),
        "serve" => serve(alloc, given),
        "replay" => Ok(LineAct::Replay),
        _ => reading(alloc, name, given),
    }
}
