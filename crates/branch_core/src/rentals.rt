//! Reads from a copy's rentals whether the copy is in stock, and which customer has the copy.

ghost use Rattle.std.specs.Prelude.{◌≡◌, map};
ghost use Rattle.std.specs.List.{list_any};
ghost use Rattle.shop_model.specs.Stock.{keeps_out, in_stock, held_by};
ghost use Rattle.shop_model.specs.Books.{head};
ghost use Rattle.shop_types.specs.Seen.{seen_rental};

use shop_types::{CopyNo, CustomerNo, Rental};

/// Returns whether the rental is an open rental of the copy.
fn keeps_out(rental: &Rental, copy: CopyNo) -> bool
    ensures { result ≡ keeps_out copy (seen_rental rental.now) }
{
    rental.copy == copy && rental.returned.is_none()
}

/// Returns whether a rental of the copy is open.
fn has_open(rentals: &[Rental], copy: CopyNo) -> bool
    ensures { result ≡ list_any (λ it. keeps_out copy (seen_rental it)) rentals.now }
{
    rentals
        .iter()
        .any(|rental| rental.copy == copy && rental.returned.is_none())
}

/// Returns whether no rental of the copy is open: the manual's `inventory_in_stock`.
#[tactic(auto, using(crate::proofs::RentalLemmas::any_map))]
pub fn in_stock(rentals: &[Rental], copy: CopyNo) -> bool
    ensures { result ≡ in_stock copy (map seen_rental rentals.now) }
{
    !has_open(rentals, copy)
}

/// Returns the customer of the copy's first open rental: the manual's `inventory_held_by_customer`.
pub fn held_by(rentals: &[Rental], copy: CopyNo) -> Option<CustomerNo>
    ensures { result ≡ head (held_by copy (map seen_rental rentals.now)) }
{
    for rental in rentals {
        if keeps_out(rental, copy) {
            return Some(rental.customer);
        }
    }
    None
}
