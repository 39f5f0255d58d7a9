//! Money as a cashier reads it.

ghost use Rattle.std.specs.Prelude.{◌≡◌, IfOk, string_bytes};
ghost use Rattle.till_shows.specs.Money.{amount_text, money_text, sign_text};

use std::alloc::{AllocError, Global};

fn sign(cents: i64) -> &'static str
    ensures { result.now ≡ sign_text cents }
{
    if cents < 0 { "-" } else { "" }
}

/// Returns the cents in dollars, without a sign: `$4.99`.
pub(crate) fn amount(alloc: Global, cents: u64) -> Result<String, AllocError>
    ensures { IfOk result (λ s. string_bytes s ≡ amount_text cents) }
{
    let (dollars, tens, ones) = (cents / 100, cents / 10 % 10, cents % 10);
    format!(in alloc; "${dollars}.{tens}{ones}")
}

/// Returns the cents in dollars, with two decimals and no separators: `$4.99`, and `-$1.00` below zero.
pub fn money(alloc: Global, cents: i64) -> Result<String, AllocError>
    ensures { IfOk result (λ s. string_bytes s ≡ money_text cents) }
{
    let sign = sign(cents);
    let amount = amount(alloc, cents.unsigned_abs())?;
    format!(in alloc; "{sign}{amount}")
}
