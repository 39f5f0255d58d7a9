//! The command line of head office, as a table of its subcommands and their options.

ghost use Rattle.std.specs.Prelude.{◌≡◌, false, IfOk, map, fold};
ghost use Rattle.clap.specs.Words.{app_of, shape_of, with_subcommand};
ghost use Rattle.clap.specs.declared.builder.command.Command.TheViews.{out-Command as fields_of};
ghost use Rattle.office_words.specs.CommandLine as line;
ghost use Rattle.office_words.specs.CommandLine.{is_reading};
ghost use Rattle.office_words.specs.Table.{table_shape};

use crate::options::Kind;
use clap::Command;
use std::alloc::{AllocError, Global};
use word_tables::{optional, with_options};

/// A subcommand: its name and its options.
#[derive(Clone, Copy)]
struct Subcommand {
    name: &'static str,
    options: &'static [(&'static str, Kind)],
}

/// The subcommands with which head office doesn't only read, in the order in which help lists them.
static COMMANDS: [Subcommand; 18] = [
    // ---- what changes the catalogue
    Subcommand {
        name: "country-add",
        options: &[("key", Kind::Text), ("name", Kind::Text)],
    },
    Subcommand {
        name: "language-add",
        options: &[("key", Kind::Text), ("name", Kind::Text)],
    },
    Subcommand {
        name: "category-add",
        options: &[("key", Kind::Text), ("name", Kind::Text)],
    },
    Subcommand {
        name: "city-add",
        options: &[
            ("key", Kind::Text),
            ("name", Kind::Text),
            ("country", Kind::Row),
        ],
    },
    Subcommand {
        name: "actor-add",
        options: &[
            ("key", Kind::Text),
            ("first", Kind::Text),
            ("last", Kind::Text),
        ],
    },
    Subcommand {
        name: "film-add",
        options: &[
            ("key", Kind::Text),
            ("title", Kind::Text),
            ("description", Kind::DefaultText("")),
            ("language", Kind::Row),
            ("category", Kind::Row),
            ("rating", Kind::DefaultText("G")),
            ("period", Kind::DefaultNumber(1, 255, "3")),
            ("rate", Kind::DefaultNumber(0, 9_999, "499")),
            ("replacement", Kind::DefaultNumber(0, 99_999, "1999")),
            ("length", Kind::OptionalNumber(1, 65_535)),
            ("features", Kind::DefaultText("")),
        ],
    },
    Subcommand {
        name: "film-price",
        options: &[
            ("key", Kind::Text),
            ("film", Kind::Row),
            ("rate", Kind::Number(0, 9_999)),
        ],
    },
    Subcommand {
        name: "film-withdraw",
        options: &[("key", Kind::Text), ("film", Kind::Row)],
    },
    Subcommand {
        name: "cast-add",
        options: &[
            ("key", Kind::Text),
            ("film", Kind::Row),
            ("actor", Kind::Row),
        ],
    },
    // ---- the branches and their staff
    Subcommand {
        name: "branch-add",
        options: &[
            ("key", Kind::Text),
            ("token", Kind::Text),
            ("city", Kind::Row),
            ("address", Kind::Text),
            ("postal", Kind::Text),
            ("phone", Kind::Text),
        ],
    },
    Subcommand {
        name: "staff-add",
        options: &[
            ("key", Kind::Text),
            ("branch", Kind::Row),
            ("city", Kind::Row),
            ("first", Kind::Text),
            ("last", Kind::Text),
            ("address", Kind::Text),
            ("postal", Kind::Text),
            ("phone", Kind::Text),
        ],
    },
    Subcommand {
        name: "staff-leave",
        options: &[("key", Kind::Text), ("staff", Kind::Row)],
    },
    Subcommand {
        name: "manager-set",
        options: &[
            ("key", Kind::Text),
            ("branch", Kind::Row),
            ("staff", Kind::Row),
        ],
    },
    // ---- by which rule balances go
    Subcommand {
        name: "balance-rule",
        options: &[("key", Kind::Text), ("rule", Kind::Text)],
    },
    // ---- the program itself
    Subcommand {
        name: "init",
        options: &[("token", Kind::Text)],
    },
    Subcommand {
        name: "migrate",
        options: &[],
    },
    Subcommand {
        name: "serve",
        options: &[
            ("port", Kind::Number(1, 65_535)),
            ("connections", Kind::Number(1, 1_000_000)),
        ],
    },
    Subcommand {
        name: "replay",
        options: &[],
    },
];

/// The subcommands with which head office only reads. They have no key, and help lists them after the others.
static READINGS: [Subcommand; 4] = [
    Subcommand {
        name: "sales",
        options: &[],
    },
    Subcommand {
        name: "custody",
        options: &[("branch", Kind::Row), ("copy", Kind::Row)],
    },
    Subcommand {
        name: "transit",
        options: &[],
    },
    Subcommand {
        name: "audit",
        options: &[],
    },
];

/// Returns the command of a subcommand.
fn command_of<'a>(alloc: Global, subcommand: Subcommand) -> Result<Command<'a>, AllocError>
    ensures shape { IfOk result (λ c. shape_of c ≡ table_shape subcommand) }
    ensures local { IfOk result (λ c. (fields_of c).has_globals ≡ false) }
{
    let command = Command::new(alloc, subcommand.name);
    with_options(alloc, command, subcommand.options)
}

/// Returns the command with the subcommands added.
fn with_commands<'a>(
    alloc: Global,
    mut command: Command<'a>,
    subcommands: &[Subcommand],
) -> Result<Command<'a>, AllocError>
    requires local { (fields_of command).has_globals ≡ false }
    ensures app { IfOk result (λ c. app_of c
        ≡ fold with_subcommand (app_of command.entry) (map table_shape subcommands.now)) }
    ensures local { IfOk result (λ c. (fields_of c).has_globals ≡ false) }
{
    for subcommand in subcommands {
        let inner = command_of(alloc, *subcommand)?;
        command = command.subcommand(inner)?;
    }
    Ok(command)
}

/// Returns the command line before its subcommands.
fn top<'a>(alloc: Global) -> Result<Command<'a>, AllocError>
    ensures app { IfOk result (λ c. app_of c ≡ line.top_app) }
    ensures local { IfOk result (λ c. (fields_of c).has_globals ≡ false) }
{
    Command::new(alloc, "sakila")
        .no_binary_name(true)
        .subcommand_required(true)
        .arg(optional(alloc, "db"))
}

/// Returns the command line of head office.
pub(crate) fn office<'a>(alloc: Global) -> Result<Command<'a>, AllocError>
    ensures app { IfOk result (λ c. app_of c ≡ line.office_app) }
    ensures local { IfOk result (λ c. (fields_of c).has_globals ≡ false) }
{
    let command = top(alloc)?;
    let command = with_commands(alloc, command, &COMMANDS)?;
    with_commands(alloc, command, &READINGS)
}

/// Returns whether head office only reads with the subcommand of this name.
pub fn is_reading(name: &str) -> bool
    ensures { result ≡ is_reading name.now }
{
    READINGS.iter().any(|reading| reading.name == name)
}
