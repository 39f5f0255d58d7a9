ghost use Rattle.std.specs.Prelude.{◌≡◌, IfOk, string_bytes};
ghost use Rattle.shop_model.specs.Answers.{shown_text};
ghost use Rattle.shop_types.specs.Seen.{seen_place};

use crate::fields::{Field, object_text};
use shop_types::Place;
use std::alloc::{AllocError, Global};

/// Writes the body that reports to head office where the copy of a mark is.
pub fn custody_text(alloc: Global, place: Place) -> Result<String, AllocError>
    ensures { IfOk result (λ s. string_bytes s ≡ shown_text (seen_place place)) }
{
    match place {
        Place::Here { branch, copy } => object_text(
            alloc,
            &[
                Field::Number("branch", branch.get() as u64),
                Field::Number("copy", copy.get() as u64),
                Field::Text("place", "here"),
            ],
        ),
        Place::Transit { from, to, number } => object_text(
            alloc,
            &[
                Field::Number("from", from.get() as u64),
                Field::Number("number", number.get() as u64),
                Field::Text("place", "transit"),
                Field::Number("to", to.get() as u64),
            ],
        ),
        Place::Gone => object_text(alloc, &[Field::Text("place", "gone")]),
    }
}
