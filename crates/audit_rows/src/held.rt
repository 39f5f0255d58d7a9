//! Whether the copies of open rentals are here.

ghost use Rattle.std.specs.Prelude.{◌≡◌, map};
ghost use Rattle.std.specs.List.{list_any, list_all};
ghost use Rattle.shop_model.specs.Rows.{at};
ghost use Rattle.shop_model.specs.Stock.{is_here};
ghost use Rattle.shop_types.specs.Seen.{seen_rental};
ghost use Rattle.audit_rows.specs.Seen.{shop_copy};
ghost use Rattle.audit_rows.specs.Shops.{is_held_here};

use crate::CheckedRow;
use crate::books::CheckedCopy;
use shop_types::{CopyNo, CopyState, Rental};

fn is_here(row: &CheckedRow<CheckedCopy>) -> bool
    ensures { result ≡ is_here (shop_copy row.now) }
{
    match row.it.state {
        CopyState::Here => true,
        CopyState::Sent => false,
        CopyState::Scrapped => false,
    }
}

/// Returns whether the copy of that number, which is its place, is here.
fn is_copy_here(copies: &[CheckedRow<CheckedCopy>], number: CopyNo) -> bool
    ensures { result ≡ list_any is_here (at number (map shop_copy copies.now)) }
{
    match copies.get(number.get() as usize - 1) {
        Some(row) => is_here(row),
        None => false,
    }
}

/// Returns whether every open rental is of a copy that is here.
pub fn are_held_here(rentals: &[CheckedRow<Rental>], copies: &[CheckedRow<CheckedCopy>]) -> bool
    ensures { result ≡ list_all (λ row. is_held_here (map shop_copy copies.now) (seen_rental row.it)) rentals.now }
{
    rentals.iter().all(|row| row.it.returned.is_some() || is_copy_here(copies, row.it.copy))
}
