//! What the drawer has in all, and by members of staff.

ghost use Rattle.std.specs.Prelude.{◌≡◌, [], ◌++◌, List, ℕ, map, IfOk};
ghost use Rattle.shop_model.specs.Rows.{total};
ghost use Rattle.till_book.specs.Drawer.{cents_of, cents_by, is_among};
ghost use Rattle.till_book.specs.Tallies.{IsTally, refusals_of, rents_of, returns_of, staff_in, staff_sum, worth_as};

use crate::drawer::Counted;
use shop_types::StaffNo;
use sql_rows::StoreFault;
use std::alloc::Global;

/// What a member of staff took.
#[derive(Clone, Copy)]
pub struct StaffSum {
    pub staff: StaffNo,
    pub cents: u64,
}

/// What is in the drawer, and how many entries came.
#[derive(Drop)]
pub struct Tally {
    /// Who took payments, in the order of their first payments.
    pub staff: Vec<StaffSum>,
    /// What all took, in cents.
    pub paid: u64,
    pub rents: u64,
    pub returns: u64,
    pub refused: u64,
}

/// What is summed up.
#[derive(Clone, Copy)]
enum Worth {
    Cents,
    CentsBy(StaffNo),
    Rents,
    Returns,
    Refusals,
}

fn cents_of(it: Counted) -> u64
    ensures { result ≡ cents_of it }
{
    match it {
        Counted::Paid { amount, .. } => u64::from(amount.get()),
        Counted::Rented | Counted::Returned | Counted::Other | Counted::Refused => 0,
    }
}

fn cents_by(who: StaffNo, it: Counted) -> u64
    ensures { result ≡ cents_by who it }
{
    match it {
        Counted::Paid { staff, amount } => {
            if staff.get() == who.get() {
                u64::from(amount.get())
            } else {
                0
            }
        }
        Counted::Rented | Counted::Returned | Counted::Other | Counted::Refused => 0,
    }
}

fn rents_of(it: Counted) -> u64
    ensures { result ≡ rents_of it }
{
    match it {
        Counted::Rented => 1,
        Counted::Paid { .. } | Counted::Returned | Counted::Other | Counted::Refused => 0,
    }
}

fn returns_of(it: Counted) -> u64
    ensures { result ≡ returns_of it }
{
    match it {
        Counted::Returned => 1,
        Counted::Paid { .. } | Counted::Rented | Counted::Other | Counted::Refused => 0,
    }
}

fn refusals_of(it: Counted) -> u64
    ensures { result ≡ refusals_of it }
{
    match it {
        Counted::Refused => 1,
        Counted::Paid { .. } | Counted::Rented | Counted::Returned | Counted::Other => 0,
    }
}

fn worth_as(what: &Worth, it: Counted) -> u64
    ensures { result ≡ worth_as what.now it }
{
    match what {
        Worth::Cents => cents_of(it),
        Worth::CentsBy(who) => cents_by(*who, it),
        Worth::Rents => rents_of(it),
        Worth::Returns => returns_of(it),
        Worth::Refusals => refusals_of(it),
    }
}

/// Sums up. Fails if the sum is too large.
fn sum_of(what: Worth, counted: &[Counted]) -> Result<u64, StoreFault>
    ensures { IfOk result (λ sum. sum ≡ total (worth_as what) counted.now) }
{
    let mut sum: u64 = 0;
    for it in counted {
        let more = worth_as(&what, *it);
        let Some(next) = sum.checked_add(more) else {
            return Err(StoreFault::Failed);
        };
        sum = next;
    }
    Ok(sum)
}

/// Tests whether the member of staff is among these.
fn is_found(staff: StaffNo, found: &[StaffNo]) -> bool
    ensures { result ≡ is_among staff found.now }
{
    found.iter().any(|it| it.get() == staff.get())
}

/// Returns who took payments, each once, in the order of their first payments.
fn staff_in(alloc: Global, counted: &[Counted]) -> Result<Vec<StaffNo>, StoreFault>
    ensures { IfOk result (λ found. found.items ≡ staff_in [] counted.now) }
{
    let mut found: Vec<StaffNo> = Vec::new(alloc);
    for it in counted {
        if let Counted::Paid { staff, .. } = it {
            if !is_found(*staff, found.as_slice()) {
                found.push(*staff)?;
            }
        }
    }
    Ok(found)
}

/// Returns what each member of staff took.
fn staff_sums(
    alloc: Global,
    staff: &[StaffNo],
    counted: &[Counted],
) -> Result<Vec<StaffSum>, StoreFault>
    ensures { IfOk result (λ sums. sums.items ≡ map (staff_sum counted.now) staff.now) }
{
    let mut sums = Vec::new(alloc);
    for who in staff {
        let cents = sum_of(Worth::CentsBy(*who), counted)?;
        sums.push(StaffSum { staff: *who, cents })?;
    }
    Ok(sums)
}

/// Sums up what was counted, in all and by the members of staff who took payments. Fails if a sum is too large.
pub fn tally_of(alloc: Global, counted: &[Counted]) -> Result<Tally, StoreFault>
    ensures { IfOk result (IsTally counted.now) }
{
    let staff = staff_in(alloc, counted)?;
    Ok(Tally {
        staff: staff_sums(alloc, staff.as_slice(), counted)?,
        paid: sum_of(Worth::Cents, counted)?,
        rents: sum_of(Worth::Rents, counted)?,
        returns: sum_of(Worth::Returns, counted)?,
        refused: sum_of(Worth::Refusals, counted)?,
    })
}
