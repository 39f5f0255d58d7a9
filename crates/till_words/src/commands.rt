//! The command line of a till, as a table of its words and their options.

ghost use Rattle.std.specs.Prelude.{◌≡◌, false, IfOk, map, fold, codes};
ghost use Rattle.clap.specs.Words.{app_of, shape_of, with_subcommand};
ghost use Rattle.clap.specs.declared.builder.command.Command.TheViews.{out-Command as fields_of};
ghost use Rattle.till_words.specs.CommandLine as line;
ghost use Rattle.till_words.specs.Table.{table_shape};

use crate::options::Kind;
use clap::Command;
use std::alloc::{AllocError, Global};
use word_tables::with_options;

/// A word, its line of help, how it is said, an example of it, and its options.
#[derive(Clone, Copy)]
pub(crate) struct Subcommand {
    pub(crate) name: &'static str,
    pub(crate) about: &'static str,
    pub(crate) usage: &'static str,
    pub(crate) example: &'static str,
    pub(crate) options: &'static [(&'static str, Kind)],
}

/// The options before the word.
static OPTIONS: [(&'static str, Kind); 5] = [
    ("book", Kind::OptionalText),
    ("drawer", Kind::OptionalRow),
    ("json", Kind::Flag),
    ("staff", Kind::OptionalRow),
    ("yes", Kind::Flag),
];

/// Returns the line before its word, as if it were a word.
pub(crate) fn top_word() -> Subcommand
    ensures { result.name.now ≡ codes "till" }
{
    Subcommand {
        name: "till",
        about: "Do a word of the till: till WORD ..",
        usage: "till [--book FILE] [--staff N] [--drawer N] [--json] [--yes] WORD ..",
        example: "till rent 17 4",
        options: &OPTIONS,
    }
}

/// The words, in the order in which help lists them.
pub(crate) static SUBCOMMANDS: [Subcommand; 32] = [
    // ---- at the counter
    Subcommand {
        name: "rent",
        about: "Rent a copy to a customer: rent CUSTOMER COPY",
        usage: "rent CUSTOMER COPY",
        example: "rent 17 4",
        options: &[("customer", Kind::Row), ("copy", Kind::Row)],
    },
    Subcommand {
        name: "return",
        about: "Take a copy back: return COPY, or return --rental N",
        usage: "return COPY, or return --rental N",
        example: "return 4",
        options: &[("copy", Kind::OptionalRow), ("rental", Kind::OptionalRow)],
    },
    Subcommand {
        name: "pay",
        about: "Take a payment: pay CUSTOMER 4.99, of a rental with --rental N",
        usage: "pay CUSTOMER AMOUNT",
        example: "pay 17 4.99 --rental 9",
        options: &[
            ("customer", Kind::Row),
            ("amount", Kind::Text),
            ("rental", Kind::OptionalRow),
        ],
    },
    Subcommand {
        name: "join",
        about: "Add a customer: join FIRST LAST ADDRESS PHONE CITY",
        usage: "join FIRST LAST ADDRESS PHONE CITY",
        example: "join MARY SMITH \"1 Main\" 555-0101 1",
        options: &[
            ("first", Kind::Text),
            ("last", Kind::Text),
            ("address", Kind::Text),
            ("phone", Kind::Text),
            ("city", Kind::Text),
            ("postal", Kind::DefaultText("")),
        ],
    },
    Subcommand {
        name: "bar",
        about: "Let a customer rent no more: bar CUSTOMER",
        usage: "bar CUSTOMER",
        example: "bar 17",
        options: &[("customer", Kind::Row)],
    },
    Subcommand {
        name: "unbar",
        about: "Let a customer rent again: unbar CUSTOMER",
        usage: "unbar CUSTOMER",
        example: "unbar 17",
        options: &[("customer", Kind::Row)],
    },
    // ---- the stock
    Subcommand {
        name: "import",
        about: "Add the copies of a stock file: import FILE LOT",
        usage: "import FILE LOT",
        example: "import delivery.csv L1",
        options: &[("file", Kind::Text), ("lot", Kind::Text)],
    },
    Subcommand {
        name: "dispatch",
        about: "Send copies to another branch: dispatch BRANCH 1,2,3",
        usage: "dispatch BRANCH COPIES",
        example: "dispatch 2 4,5,6",
        options: &[("to", Kind::Row), ("copies", Kind::Text)],
    },
    Subcommand {
        name: "receive",
        about: "Take a consignment in: receive BRANCH NUMBER, without lines 1 and 3 with --missing 1,3",
        usage: "receive BRANCH NUMBER",
        example: "receive 2 7 --missing 1,3",
        options: &[
            ("from", Kind::Row),
            ("number", Kind::Row),
            ("missing", Kind::DefaultText("")),
        ],
    },
    Subcommand {
        name: "scrap",
        about: "Take a copy out of the shop for good: scrap COPY",
        usage: "scrap COPY",
        example: "scrap 4",
        options: &[("copy", Kind::Row)],
    },
    // ---- looks
    Subcommand {
        name: "customer",
        about: "Show a customer, or those with a name or phone: customer NUMBER or TEXT",
        usage: "customer NUMBER, or customer TEXT",
        example: "customer smith",
        options: &[("find", Kind::Text)],
    },
    Subcommand {
        name: "film",
        about: "Show a film, or those with a title: film NUMBER or TEXT",
        usage: "film NUMBER, or film TEXT",
        example: "film dawn",
        options: &[("find", Kind::Text)],
    },
    Subcommand {
        name: "in-stock",
        about: "Whether no customer has a copy: in-stock COPY",
        usage: "in-stock COPY",
        example: "in-stock 4",
        options: &[("copy", Kind::Row)],
    },
    Subcommand {
        name: "held-by",
        about: "Who has a copy: held-by COPY",
        usage: "held-by COPY",
        example: "held-by 4",
        options: &[("copy", Kind::Row)],
    },
    Subcommand {
        name: "copies",
        about: "A film's copies, in stock and out: copies FILM",
        usage: "copies FILM",
        example: "copies 1",
        options: &[("film", Kind::Row)],
    },
    Subcommand {
        name: "balance",
        about: "What a customer owes now: balance CUSTOMER",
        usage: "balance CUSTOMER",
        example: "balance 17",
        options: &[("customer", Kind::Row)],
    },
    Subcommand {
        name: "overdue",
        about: "The rentals that are overdue",
        usage: "overdue",
        example: "overdue",
        options: &[],
    },
    Subcommand {
        name: "arrivals",
        about: "The consignments that were sent to the branch",
        usage: "arrivals",
        example: "arrivals",
        options: &[],
    },
    Subcommand {
        name: "sent",
        about: "The consignments that the branch sent",
        usage: "sent",
        example: "sent",
        options: &[],
    },
    Subcommand {
        name: "rewards",
        about: "Who paid more often, and more, than this last month: rewards PURCHASES 4.99",
        usage: "rewards PURCHASES AMOUNT",
        example: "rewards 5 20",
        options: &[("purchases", Kind::Row), ("amount", Kind::Text)],
    },
    Subcommand {
        name: "sales",
        about: "What customers paid for rentals, in all and by category",
        usage: "sales",
        example: "sales",
        options: &[],
    },
    // ---- the till itself
    Subcommand {
        name: "waiting",
        about: "What is entered and not yet answered",
        usage: "waiting",
        example: "waiting",
        options: &[],
    },
    Subcommand {
        name: "send",
        about: "Send what is waiting",
        usage: "send",
        example: "send",
        options: &[],
    },
    Subcommand {
        name: "last",
        about: "The book's last entries: last COUNT",
        usage: "last, or last COUNT",
        example: "last 3",
        options: &[("count", Kind::DefaultRow("10"))],
    },
    Subcommand {
        name: "day",
        about: "What is in the drawer: day. Close it: day --count 412.50. How it was closed: day 2026-03-09",
        usage: "day, or day --count AMOUNT, or day DATE",
        example: "day --count 412.50",
        options: &[("date", Kind::OptionalText), ("count", Kind::OptionalText)],
    },
    Subcommand {
        name: "today",
        about: "Say which day it is, before a day's first word: today 2026-03-09",
        usage: "today DATE",
        example: "today 2026-03-09",
        options: &[("date", Kind::Text)],
    },
    Subcommand {
        name: "again",
        about: "Enter once more what came with an earlier moment than another's: again, or again --late",
        usage: "again, or again --late",
        example: "again",
        options: &[("late", Kind::Flag)],
    },
    Subcommand {
        name: "slip",
        about: "Show the last slip once more",
        usage: "slip",
        example: "slip",
        options: &[],
    },
    Subcommand {
        name: "help",
        about: "Show these words, or one of them: help WORD",
        usage: "help, or help WORD",
        example: "help rent",
        options: &[],
    },
    Subcommand {
        name: "init",
        about: "Make a new book: init ADDRESS TOKEN, with --staff N --zone NAME or --office",
        usage: "init ADDRESS TOKEN --staff N --zone NAME, or init ADDRESS TOKEN --office",
        example: "init 127.0.0.1:8080 TOKEN --staff 1 --zone America/Edmonton",
        options: &[
            ("address", Kind::Text),
            ("token", Kind::Text),
            ("staff", Kind::OptionalRow),
            ("office", Kind::Flag),
            ("zone", Kind::OptionalText),
        ],
    },
    Subcommand {
        name: "zone",
        about: "Set the book's zone: zone America/Edmonton, zone UTC-07:00 or zone UTC",
        usage: "zone NAME",
        example: "zone America/Edmonton",
        options: &[("name", Kind::Text)],
    },
    Subcommand {
        name: "office",
        about: "Do what words of head office ask for: office WORD ..",
        usage: "office WORD ..",
        example: "office audit",
        options: &[],
    },
];

/// Returns the command of a word.
fn command_of<'a>(alloc: Global, subcommand: Subcommand) -> Result<Command<'a>, AllocError>
    ensures shape { IfOk result (λ c. shape_of c ≡ table_shape subcommand) }
    ensures local { IfOk result (λ c. (fields_of c).has_globals ≡ false) }
{
    let command = Command::new(alloc, subcommand.name).about(subcommand.about);
    with_options(alloc, command, subcommand.options)
}

/// Returns the command with these words added.
fn with_commands<'a>(
    alloc: Global,
    mut command: Command<'a>,
    subcommands: &[Subcommand],
) -> Result<Command<'a>, AllocError>
    requires local { (fields_of command).has_globals ≡ false }
    ensures app { IfOk result (λ c. app_of c
        ≡ fold with_subcommand (app_of command.entry) (map table_shape subcommands.now)) }
    ensures local { IfOk result (λ c. (fields_of c).has_globals ≡ false) }
{
    for subcommand in subcommands {
        let inner = command_of(alloc, *subcommand)?;
        command = command.subcommand(inner)?;
    }
    Ok(command)
}

/// Returns the command line without its words.
fn top<'a>(alloc: Global) -> Result<Command<'a>, AllocError>
    ensures app { IfOk result (λ c. app_of c ≡ line.top_app) }
    ensures local { IfOk result (λ c. (fields_of c).has_globals ≡ false) }
{
    let command = Command::new(alloc, "till")
        .no_binary_name(true)
        .disable_help_subcommand(true);
    with_options(alloc, command, &OPTIONS)
}

/// Returns the command line of a till.
pub(crate) fn till<'a>(alloc: Global) -> Result<Command<'a>, AllocError>
    ensures app { IfOk result (λ c. app_of c ≡ line.till_app) }
    ensures local { IfOk result (λ c. (fields_of c).has_globals ≡ false) }
{
    let command = top(alloc)?;
    with_commands(alloc, command, &SUBCOMMANDS)
}
