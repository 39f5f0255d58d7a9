ghost use Rattle.std.specs.Prelude.{◌≡◌, [], ◌∷◌, codes, decimal, length, IfOk, string_bytes};
ghost use Rattle.shop_model.specs.Json.{flag_text, numbers_text, object};
ghost use Rattle.std.specs.Option.{option_to_list};
ghost use Rattle.shop_model.specs.Answers.{holder_text};

use crate::fields::{Field, object_text};
use crate::numbers::listed_text;
use shop_types::{CopyNo, CustomerNo};
use std::alloc::{AllocError, Global};

/// Writes the body that shows whether a copy is in stock.
pub fn in_stock_text(alloc: Global, is_in: bool) -> Result<String, AllocError>
    ensures { IfOk result (λ s. string_bytes s ≡ object ((codes "in_stock", flag_text is_in) ∷ [])) }
{
    object_text(alloc, &[Field::Flag("in_stock", is_in)])
}

/// Writes the body that shows which customer has a copy. It shows `null` if no customer has the copy.
pub fn holder_text(alloc: Global, customer: Option<CustomerNo>) -> Result<String, AllocError>
    ensures { IfOk result (λ s. string_bytes s
        ≡ object ((codes "customer", holder_text (option_to_list customer)) ∷ [])) }
{
    let holder = match customer {
        Some(customer) => Field::Number("customer", customer.get() as u64),
        None => Field::Null("customer"),
    };
    object_text(alloc, &[holder])
}

/// Writes the body that lists copies by their numbers, with their count.
pub fn copies_text(alloc: Global, copies: &[CopyNo]) -> Result<String, AllocError>
    ensures { IfOk result (λ s. string_bytes s
        ≡ object ((codes "copies", numbers_text copies.now) ∷ (codes "count", decimal (length copies.now)) ∷ [])) }
{
    listed_text(alloc, "copies", copies)
}
