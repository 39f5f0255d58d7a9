ghost use Rattle.std.specs.Prelude.{◌≡◌, [], ◌∷◌, codes, decimal, length, IfOk, string_bytes};
ghost use Rattle.std.specs.Fmt.{signed_decimal};
ghost use Rattle.serde_json.specs.View.{view};
ghost use Rattle.shop_model.specs.Json.{numbers_text, object};
ghost use Rattle.shop_views.specs.Bodies.{balance_value};

use crate::numbers::listed_text;
use serde_json::{Map, Value, put};
use shop_types::{Cents, CustomerNo};
use std::alloc::{AllocError, Global};

fn balance_value(alloc: Global, balance: Cents) -> Result<Value, AllocError>
    ensures { IfOk result (λ v. view v ≡ balance_value balance) }
{
    let mut map = Map::new(alloc);
    put(&mut map, alloc, "balance", Value::from(balance.get()))?;
    Ok(Value::Object(map))
}

/// Writes the body that shows what a customer owes, in cents. A negative number is what the branch owes the customer.
pub fn balance_text(alloc: Global, balance: Cents) -> Result<String, AllocError>
    ensures { IfOk result (λ s. string_bytes s ≡ object ((codes "balance", signed_decimal balance) ∷ [])) }
{
    balance_value(alloc, balance)?.to_string(alloc)
}

/// Writes the body that lists the numbers of the customers who are rewarded, with their count.
pub fn rewards_text(alloc: Global, customers: &[CustomerNo]) -> Result<String, AllocError>
    ensures { IfOk result (λ s. string_bytes s
        ≡ object ((codes "count", decimal (length customers.now)) ∷ (codes "customers", numbers_text customers.now)
        ∷ [])) }
{
    listed_text(alloc, "customers", customers)
}
