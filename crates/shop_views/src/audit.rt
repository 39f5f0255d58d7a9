ghost use Rattle.std.specs.Prelude.{◌≡◌, IfOk, string_bytes};
ghost use Rattle.shop_model.specs.Answers.{shown_text};
ghost use Rattle.shop_types.specs.Seen.{seen_audit};

use crate::fields::{Field, object_text};
use shop_types::Audit;
use std::alloc::{AllocError, Global};

/// Writes the body that reports an audit to head office.
pub fn audit_text(alloc: Global, audit: Audit) -> Result<String, AllocError>
    ensures { IfOk result (λ s. string_bytes s ≡ shown_text (seen_audit audit)) }
{
    object_text(
        alloc,
        &[
            Field::Number("gone", audit.gone),
            Field::Number("here", audit.here),
            Field::Number("made", audit.made),
            Field::Flag("sound", audit.sound),
            Field::Number("transit", audit.transit),
        ],
    )
}
