//! Names of people, alone and joined.

ghost use Rattle.std.specs.Prelude.{◌≡◌, ◌++◌, codes, map, IfOk, string_bytes};
ghost use Rattle.std.specs.List.{join_by};
ghost use Rattle.shop_views.specs.Names.{name_text};

use crate::joins::Told;
use shop_types::T45;
use std::alloc::{AllocError, Global};

/// A person's names.
#[derive(Drop)]
pub struct PersonName {
    pub first: T45,
    pub last: T45,
}

/// Joins the two texts, with the separator between them.
pub(crate) fn with_between(
    alloc: Global,
    first: &str,
    between: &str,
    last: &str,
) -> Result<String, AllocError>
    ensures { IfOk result (λ s. string_bytes s ≡ first.now ++ between.now ++ last.now) }
{
    format!(in alloc; "{first}{between}{last}")
}

/// Joins the first name, a blank and the last name.
pub(crate) fn full_name(alloc: Global, first: &str, last: &str) -> Result<String, AllocError>
    ensures { IfOk result (λ s. string_bytes s ≡ first.now ++ codes " " ++ last.now) }
{
    with_between(alloc, first, " ", last)
}

impl Told for PersonName {
    ghost told = { name_text };

    fn text(alloc: Global, it: &PersonName) -> Result<String, AllocError> {
        full_name(alloc, it.first.as_str(), it.last.as_str())
    }
}
