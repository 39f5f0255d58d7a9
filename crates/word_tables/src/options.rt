//! What the options of a word say to the library `clap`.

ghost use Rattle.std.specs.Prelude.{◌≡◌, false, IfOk, map, fold};
ghost use Rattle.clap.specs.Words.{Rule, Text, rule_of, app_of, with_rule};
ghost use Rattle.clap.specs.declared.builder.command.Command.TheViews.{out-Command as fields_of};
ghost use Rattle.word_tables.specs.Rules as rules;
ghost use Rattle.word_tables.specs.Rules.{option_rule};

use clap::builder::ValueParser;
use clap::{Arg, Command};
use std::alloc::{AllocError, Global};

/// What stands after an option of a table.
pub trait OptionKind: Copy {
    // the rule of an option of this name and kind
    ghost rule: { Text → Self → Rule };

    /// Returns the option of this name and kind.
    fn option<'a>(self, alloc: Global, name: &'static str) -> Arg<'a>
        ensures rule { rule_of result ≡ rule name.entry.now self }
        ensures local { result.global ≡ false };
}

/// Makes the option `--NAME TEXT`, which may be left out.
pub fn optional<'a>(alloc: Global, name: &'a str) -> Arg<'a>
    ensures rule { rule_of result ≡ rules.optional_rule name.entry.now }
    ensures local { result.global ≡ false }
{
    Arg::new(alloc, name).long(name)
}

/// Makes the option `--NAME NUMBER`, of a number of this range, which may be left out.
pub fn number<'a>(alloc: Global, name: &'a str, low: u64, high: u64) -> Arg<'a>
    ensures rule { rule_of result ≡ rules.optional_number_rule name.entry.now low high }
    ensures local { result.global ≡ false }
{
    optional(alloc, name).value_parser(ValueParser::unsigned(low, high))
}

/// Returns the command with the options of the table added.
pub fn with_options<'a, K: OptionKind>(
    alloc: Global,
    mut command: Command<'a>,
    options: &[(&'static str, K)],
) -> Result<Command<'a>, AllocError>
    requires local { (fields_of command).has_globals ≡ false }
    ensures app { IfOk result (λ c. app_of c
        ≡ fold with_rule (app_of command.entry) (map (option_rule K.OptionKind.rule) options.now)) }
    ensures local { IfOk result (λ c. (fields_of c).has_globals ≡ false) }
{
    for entry in options {
        let (name, kind) = *entry;
        command = command.arg(kind.option(alloc, name))?;
    }
    Ok(command)
}
