//! Texts of values, joined.

ghost use Rattle.std.specs.Prelude.{◌≡◌, map, IfOk, string_bytes};
ghost use Rattle.std.specs.List.{join_by};
ghost use Rattle.shop_model.specs.Values.{Text};

use std::alloc::{AllocError, Global};

/// A value that has a text of its own.
pub(crate) trait Told: Sized {
    // the value's text
    ghost told: { Self → Text };

    fn text(alloc: Global, it: &Self) -> Result<String, AllocError>
        ensures { IfOk result (λ s. string_bytes s ≡ told it.now) };
}

/// Writes each value as a text of its own.
fn texts_of<T: Told>(alloc: Global, values: &[T]) -> Result<Vec<String>, AllocError>
    ensures { IfOk result (λ texts. map string_bytes texts.items ≡ map T.Told.told values.now) }
{
    let mut texts = Vec::with_capacity(alloc, values.len())?;
    for value in values {
        texts.push_reserved(T::text(alloc, value)?);
    }
    Ok(texts)
}

/// Joins the values' texts in their order, with the separator between them.
pub(crate) fn joined<T: Told>(
    alloc: Global,
    values: &[T],
    between: &str,
) -> Result<String, AllocError>
    ensures { IfOk result (λ s. string_bytes s ≡ join_by T.Told.told between.now values.now) }
{
    let texts = texts_of(alloc, values)?;
    texts.as_slice().join(alloc, between)
}
