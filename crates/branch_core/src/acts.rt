//! Lists which rows a command names, and finds its first refusal by what was found of them if its key is new.
#![tactic(auto, using(shop_model::proofs::FoundLemmas::at_one))]

ghost use Rattle.std.specs.Prelude.{◌≡◌, ℕ, true, Some};
ghost use Rattle.shop_model.specs.Values as model;
ghost use Rattle.shop_types.specs.Seen.{seen_act};
ghost use Rattle.branch_core.specs.Agreed.{named_rows};
ghost use Rattle.branch_core.specs.Decided.{IsRefusal};

use crate::consignments::{dispatch_refusal, receive_refusal};
use crate::stock::stock_refusal;
use crate::{Named, RowsFound};
use shop_types::{Act, BranchNo, CustomerNo, Refusal, RentalNo};

/// Returns the single rows that an act names. Some acts name other rows, which are found in other ways.
#[tactic(auto)]
pub fn named_rows(act: &Act) -> Named
    ensures { result ≡ named_rows (seen_act act.now) }
{
    let nothing = Named::nothing();
    match act {
        Act::Customer(it) => Named {
            city: Some(it.person.city),
            ..nothing
        },
        Act::Active { customer, .. } => Named {
            customer: Some(*customer),
            ..nothing
        },
        Act::TakeBack(rental) => Named {
            rental: Some(*rental),
            ..nothing
        },
        Act::Pay {
            customer,
            rental,
            ..
        } => Named {
            customer: Some(*customer),
            rental: *rental,
            ..nothing
        },
        Act::Scrap(copy) => Named {
            copy: Some(*copy),
            ..nothing
        },
        Act::Rent { .. } | Act::Import { .. } | Act::Dispatch { .. } | Act::Receive { .. } => {
            nothing
        }
    }
}

/// Returns the first refusal that depends on what the command does. Each arm is the refusal of its own act.
#[tactic(auto)]
pub fn act_refusal(branch: BranchNo, act: &Act, rows: &RowsFound) -> Option<Refusal>
    ensures { IsRefusal branch (seen_act act.now) rows.now result }
{
    match act {
        Act::Customer(_) => city_refusal(rows),
        Act::Active { active, .. } => active_refusal(*active, rows),
        Act::Rent { .. } => rent_refusal(rows),
        Act::TakeBack(_) => return_refusal(rows),
        Act::Pay {
            customer,
            rental,
            ..
        } => payment_refusal(*customer, *rental, rows),
        Act::Import { .. } => stock_refusal(&rows.stock, rows.has_lot),
        Act::Dispatch { to, copies } => dispatch_refusal(branch, *to, copies.as_slice(), rows),
        Act::Receive { missing, .. } => receive_refusal(missing.as_slice(), rows),
        Act::Scrap(_) => scrap_refusal(rows),
    }
}

/// Returns the refusal of a new customer, if the city isn't there.
fn city_refusal(rows: &RowsFound) -> Option<Refusal>
    ensures { (b : ℕ) (it : model.NewCustomer) → IsRefusal b (model.AddCustomer it) rows.now result }
{
    if rows.has_city {
        None
    } else {
        Some(Refusal::NoSharedRow)
    }
}

/// Returns the first refusal of a change of whether a customer may rent.
fn active_refusal(active: bool, rows: &RowsFound) -> Option<Refusal>
    ensures { (b c : ℕ) → IsRefusal b (model.SetActive c active) rows.now result }
{
    match rows.customer {
        None => Some(Refusal::NoCustomer),
        Some(was) => {
            if was == active {
                Some(Refusal::Already)
            } else {
                None
            }
        }
    }
}

/// Returns the first refusal of a rental of a copy to a customer.
fn rent_refusal(rows: &RowsFound) -> Option<Refusal>
    ensures { (b c x : ℕ) → IsRefusal b (model.Rent c x) rows.now result }
{
    match rows.customer {
        None => Some(Refusal::NoCustomer),
        Some(false) => Some(Refusal::CustomerInactive),
        Some(true) => copy_refusal(rows),
    }
}

/// Returns the first refusal of a rental to a customer who may rent.
fn copy_refusal(rows: &RowsFound) -> Option<Refusal>
    ensures { (b c x : ℕ) → rows.now.customer ≡ Some true → IsRefusal b (model.Rent c x) rows.now result }
{
    let Some(copy) = rows.copy else {
        return Some(Refusal::NoCopy);
    };
    if !copy.is_here {
        Some(Refusal::CopyNotHere)
    } else if copy.is_out {
        Some(Refusal::CopyOut)
    } else if copy.is_withdrawn {
        Some(Refusal::FilmWithdrawn)
    } else if rows.has_same {
        Some(Refusal::SameMoment)
    } else {
        None
    }
}

/// Returns the first refusal of a return of a rental's copy.
fn return_refusal(rows: &RowsFound) -> Option<Refusal>
    ensures { (b r : ℕ) → IsRefusal b (model.TakeBack r) rows.now result }
{
    match rows.rental {
        None => Some(Refusal::NoRental),
        Some(rental) => {
            if rental.is_returned {
                Some(Refusal::RentalReturned)
            } else {
                None
            }
        }
    }
}

/// Returns the first refusal of a customer's payment, which may name a rental.
fn payment_refusal(
    customer: CustomerNo,
    named: Option<RentalNo>,
    rows: &RowsFound,
) -> Option<Refusal>
    ensures { (b amount : ℕ) → IsRefusal b (model.Pay customer named amount) rows.now result }
{
    if rows.customer.is_none() {
        return Some(Refusal::NoCustomer);
    }
    match named {
        None => None,
        Some(_) => match rows.rental {
            None => Some(Refusal::NoRental),
            Some(rental) => {
                if rental.customer == customer {
                    None
                } else {
                    Some(Refusal::WrongCustomer)
                }
            }
        },
    }
}

/// Returns the first refusal of scrapping a copy.
fn scrap_refusal(rows: &RowsFound) -> Option<Refusal>
    ensures { (b x : ℕ) → IsRefusal b (model.Scrap x) rows.now result }
{
    let Some(copy) = rows.copy else {
        return Some(Refusal::NoCopy);
    };
    if !copy.is_here {
        Some(Refusal::CopyNotHere)
    } else if copy.is_out {
        Some(Refusal::CopyOut)
    } else {
        None
    }
}
