ghost use Rattle.std.specs.Prelude.{◌≡◌, IfOk, string_bytes};
ghost use Rattle.shop_model.specs.Calendar.{moment_text};
ghost use Rattle.shop_model.specs.Answers.{customer_text};
ghost use Rattle.shop_types.specs.Seen.{seen_customer};

use crate::fields::{Field, object_text};
use shop_types::{Customer, CustomerNo};
use std::alloc::{AllocError, Global};

/// Makes the body with the text of the moment.
fn customer_body<'a>(
    alloc: Global,
    number: CustomerNo,
    customer: &'a Customer,
    created: &'a str,
) -> Result<String, AllocError>
    ensures { IfOk result (λ s. created.now ≡ moment_text customer.now.created
        → string_bytes s ≡ customer_text number (seen_customer customer.now)) }
{
    let person = &customer.person;
    object_text(
        alloc,
        &[
            Field::Flag("active", customer.active),
            Field::Text("address", person.address.as_str()),
            Field::Number("city", person.city.get() as u64),
            Field::Text("created", created),
            Field::Number("customer", number.get() as u64),
            Field::Text("first", person.first.as_str()),
            Field::Text("last", person.last.as_str()),
            Field::Text("phone", person.phone.as_str()),
            Field::Text("postal", person.postal.as_str()),
        ],
    )
}

/// Writes the body that shows a customer and the customer's number. The moment is its text, and the city is its
/// number. An empty postal code or telephone number is an empty text.
pub fn customer_text(
    alloc: Global,
    number: CustomerNo,
    customer: &Customer,
) -> Result<String, AllocError>
    ensures { IfOk result (λ s. string_bytes s ≡ customer_text number (seen_customer customer.now)) }
{
    let created = customer.created.to_string(alloc)?;
    customer_body(alloc, number, customer, created.as_str())
}
