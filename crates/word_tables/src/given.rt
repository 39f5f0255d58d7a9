//! The values of a word's options, as `clap` found them, and the faults of words.

ghost use Rattle.std.specs.Prelude.{◌≡◌, IfOk, IfErr, option_map, string_bytes};
ghost use Rattle.clap.specs.Words.{first_of};
ghost use Rattle.shop_types.specs.declared.line.Usage.TheVariants as usage;
ghost use Rattle.word_tables.specs.Given.{values_of};

use clap::ArgMatches;
use shop_types::Usage;
use std::alloc::Global;

/// Makes the fault of words that are no line, with the reason.
pub fn unread(alloc: Global, why: &str) -> Usage {
    match String::from_str(alloc, why) {
        Ok(text) => Usage::Words(text),
        Err(_) => Usage::Memory,
    }
}

/// Copies the text.
pub fn owned(alloc: Global, text: &str) -> Result<String, Usage>
    ensures ok { IfOk result (λ copy. string_bytes copy ≡ text.now) }
    ensures memory { IfErr result (λ e. e ≡ usage.Memory) }
{
    match String::from_str(alloc, text) {
        Ok(copy) => Ok(copy),
        Err(_) => Err(Usage::Memory),
    }
}

/// Returns the first value of the option `id`, if it has one.
pub fn str_of<'a>(given: &ArgMatches<'a>, id: &str) -> Option<&'a str>
    ensures { option_map (λ text. text.now) result ≡ first_of id.now (values_of given.now) }
{
    given.get_str(id)
}
