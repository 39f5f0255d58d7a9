//! What the options of a command say to the library `clap`.

ghost use Rattle.office_words.specs.Table.{kind_rule};

use clap::Arg;
use std::alloc::Global;
use word_tables::{OptionKind, number, optional};

/// What stands after an option.
#[derive(Clone, Copy)]
pub(crate) enum Kind {
    /// A text, which must be there.
    Text,
    /// A text, which is this one where it's left out.
    DefaultText(&'static str),
    /// A number of this range, which must be there.
    Number(u64, u64),
    /// A number of this range, which may be left out.
    OptionalNumber(u64, u64),
    /// A number of this range, which is the one of this text where it's left out.
    DefaultNumber(u64, u64, &'static str),
    /// The number of a row, which must be there.
    Row,
}

impl OptionKind for Kind {
    ghost rule = { kind_rule };

    fn option<'a>(self, alloc: Global, name: &'static str) -> Arg<'a> {
        match self {
            Kind::Text => optional(alloc, name).required(true),
            Kind::DefaultText(value) => optional(alloc, name).default_value(value),
            Kind::Number(low, high) => number(alloc, name, low, high).required(true),
            Kind::OptionalNumber(low, high) => number(alloc, name, low, high),
            Kind::DefaultNumber(low, high, value) => {
                number(alloc, name, low, high).default_value(value)
            }
            Kind::Row => number(alloc, name, 1, 4_294_967_295).required(true),
        }
    }
}
