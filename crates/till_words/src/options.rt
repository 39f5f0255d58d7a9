//! Describes the options of a word to the library `clap`.

ghost use Rattle.std.specs.Prelude.{◌≡◌, false};
ghost use Rattle.clap.specs.Words.{rule_of};
ghost use Rattle.word_tables.specs.Rules.{optional_row_rule};
ghost use Rattle.till_words.specs.Table.{kind_rule};

use clap::{Arg, ArgAction};
use std::alloc::Global;
use word_tables::{OptionKind, number, optional};

/// What comes after an option.
#[derive(Clone, Copy)]
pub(crate) enum Kind {
    /// A text, which must be there.
    Text,
    /// A text, which may be left out.
    OptionalText,
    /// A text, which is this one if it is left out.
    DefaultText(&'static str),
    /// A number from 1 on, which must be there.
    Row,
    /// A number from 1 on, which may be left out.
    OptionalRow,
    /// A number from 1 on, which is read from this text if it is left out.
    DefaultRow(&'static str),
    /// Nothing: the option is there or not.
    Flag,
}

/// Returns `--NAME NUMBER`, from 1 on.
fn row<'a>(alloc: Global, name: &'a str) -> Arg<'a>
    ensures rule { rule_of result ≡ optional_row_rule name.entry.now }
    ensures local { result.global ≡ false }
{
    number(alloc, name, 1, 4_294_967_295)
}

impl OptionKind for Kind {
    ghost rule = { kind_rule };

    fn option<'a>(self, alloc: Global, name: &'static str) -> Arg<'a> {
        match self {
            Kind::Text => optional(alloc, name).required(true),
            Kind::OptionalText => optional(alloc, name),
            Kind::DefaultText(value) => optional(alloc, name).default_value(value),
            Kind::Row => row(alloc, name).required(true),
            Kind::OptionalRow => row(alloc, name),
            Kind::DefaultRow(value) => row(alloc, name).default_value(value),
            Kind::Flag => optional(alloc, name).action(ArgAction::SetTrue),
        }
    }
}
