//! Finds the first refusal of a dispatch to another branch, or of a receipt of a consignment. It depends on what was
//! found of the copies or of the consignment.

ghost use Rattle.std.specs.Prelude.{◌≡◌, ◌≤◌, ℕ, ◌==◌, ◌||◌, nat_lt, Some, length, option_map};
ghost use Rattle.std.specs.List.{list_any};
ghost use Rattle.shop_model.specs.Rows.{lacks, is_empty, has_double, total};
ghost use Rattle.shop_model.specs.Values as model;
ghost use Rattle.shop_model.specs.Shop.{Shop};
ghost use Rattle.shop_model.specs.Acts.{arrival, are_lines, new_from};
ghost use Rattle.branch_core.specs.Agreed.{seen_arrival, arrival_at};
ghost use Rattle.branch_core.specs.Decided.{IsRefusal};

use crate::{ArrivalFound, RowsFound};
use shop_types::{BranchNo, CopyNo, LineNo, Refusal};

/// Returns the first refusal of a dispatch of the copies to that branch.
pub fn dispatch_refusal(
    branch: BranchNo,
    to: BranchNo,
    copies: &[CopyNo],
    rows: &RowsFound,
) -> Option<Refusal>
    ensures { IsRefusal branch (model.Dispatch to copies.now) rows.now result }
{
    let listed = &rows.listed;
    if listed.has_unknown {
        Some(Refusal::NoCopy)
    } else if listed.has_away {
        Some(Refusal::CopyNotHere)
    } else if listed.has_out {
        Some(Refusal::CopyOut)
    } else if !rows.has_branch {
        Some(Refusal::NoBranch)
    } else if to == branch {
        Some(Refusal::OwnBranch)
    } else if are_bad(copies) {
        Some(Refusal::BadLines)
    } else {
        None
    }
}

/// Returns whether there is no copy, or more than 100, or a copy twice. If there are more than 100, no two are
/// compared.
fn are_bad(copies: &[CopyNo]) -> bool
    ensures { result ≡ (is_empty copies.now || nat_lt 100 (length copies.now) || has_double copies.now) }
{
    copies.is_empty() || 100 < copies.len() || has_double(copies)
}

/// Returns whether a copy is listed twice.
fn has_double(copies: &[CopyNo]) -> bool
    ensures { result ≡ has_double copies.now }
{
    let mut later = 1;
    for copy in copies {
        if has_number(&copies[later..], *copy) {
            return true;
        }
        later += 1;
    }
    false
}

fn has_number(copies: &[CopyNo], number: CopyNo) -> bool
    ensures { result ≡ list_any (λ copy. copy == number) copies.now }
{
    copies.iter().any(|copy| *copy == number)
}

/// Returns whether a branch with so many copies never gave one of the numbers. Its copies are numbered without a gap,
/// so no copy has to be read.
pub fn has_unknown_copy(copies: &[CopyNo], count: u32) -> bool
    ensures { (shop : Shop) → count ≡ length shop.copies → result ≡ list_any (lacks shop.copies) copies.now }
{
    for copy in copies {
        if count < copy.get() {
            return true;
        }
    }
    false
}

/// Returns the first refusal of a receipt of the consignment without the missing lines.
#[tactic(auto, using(crate::proofs::ReceiptLemmas::one_arrival))]
pub fn receive_refusal(missing: &[LineNo], rows: &RowsFound) -> Option<Refusal>
    ensures { (b source number : ℕ) → IsRefusal b (model.Receive source number missing.now) rows.now result }
{
    match &rows.arrival {
        None => Some(Refusal::NoArrival),
        Some(it) => {
            if it.is_received {
                Some(Refusal::ArrivalReceived)
            } else if are_lines(missing, it.lines.as_slice().len()) {
                None
            } else {
                Some(Refusal::BadLines)
            }
        }
    }
}

/// Returns whether the numbers rise, and each is the number of one of so many lines. It stops at the first that isn't.
fn are_lines(numbers: &[LineNo], lines: usize) -> bool
    ensures { result ≡ are_lines 0 lines numbers.now }
{
    let mut low = 0;
    for number in numbers {
        let number = number.get();
        if number <= low || lines < number as usize {
            return false;
        }
        low = number;
    }
    true
}

/// Returns how many copies come with the consignment. None come if there is no consignment, if it is received, or if
/// the missing lines are bad.
#[tactic(auto, using(crate::proofs::ReceiptLemmas::one_arrival))]
pub fn new_from(found: &Option<ArrivalFound>, missing: &[LineNo]) -> u32
    ensures value { (shop : Shop) (source number : ℕ)
        → option_map seen_arrival found.now ≡ arrival_at source number shop
        → result ≡ total (new_from missing.now) (arrival source number shop) }
    ensures bound { result ≤ 100 }
{
    match found {
        None => 0,
        Some(it) => coming(it, missing),
    }
}

/// Returns how many copies come with a consignment that is there.
#[tactic(auto, using(crate::proofs::ReceiptLemmas::one_arrival))]
fn coming(it: &ArrivalFound, missing: &[LineNo]) -> u32
    ensures value { (shop : Shop) (source number : ℕ)
        → Some (seen_arrival it.now) ≡ arrival_at source number shop
        → result ≡ total (new_from missing.now) (arrival source number shop) }
    ensures bound { result ≤ 100 }
{
    let lines = it.lines.as_slice();
    if it.is_received {
        0
    } else if are_lines(missing, lines.len()) {
        (lines.len() - missing.len()) as u32
    } else {
        0
    }
}
