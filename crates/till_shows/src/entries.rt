//! What a command asks for, as a line.

ghost use Rattle.std.specs.Prelude.{◌≡◌, IfOk, string_bytes};
ghost use Rattle.shop_types.specs.Seen.{seen_act, seen_command};
ghost use Rattle.till_shows.specs.Entries.{payment_text, dispatch_text, receipt_text, act_text, command_text};

use crate::cents::money;
use crate::looks::not;
use crate::moments::moment_words;
use crate::numbers::commas;
use shop_types::{
    Act, Amount, BranchNo, Command, ConsignmentNo, CopyNos, CustomerNo, LineNos, RentalNo,
};
use std::alloc::{AllocError, Global};

fn payment(
    alloc: Global,
    customer: CustomerNo,
    rental: Option<RentalNo>,
    amount: Amount,
) -> Result<String, AllocError>
    ensures { IfOk result (λ s. string_bytes s ≡ payment_text customer rental amount) }
{
    let sum = money(alloc, amount.get() as i64)?;
    let customer = customer.get();
    match rental {
        Some(rental) => {
            let rental = rental.get();
            format!(in alloc; "pay: customer {customer}, {sum}, rental {rental}")
        }
        None => format!(in alloc; "pay: customer {customer}, {sum}"),
    }
}

fn dispatch(alloc: Global, to: BranchNo, copies: &CopyNos) -> Result<String, AllocError>
    ensures { IfOk result (λ s. string_bytes s ≡ dispatch_text to copies.now) }
{
    let copies = commas(alloc, copies)?;
    format!(in alloc; "dispatch: branch {}, copies {copies}", to.get())
}

fn receipt(
    alloc: Global,
    from: BranchNo,
    number: ConsignmentNo,
    missing: &LineNos,
) -> Result<String, AllocError>
    ensures { IfOk result (λ s. string_bytes s ≡ receipt_text from number missing.now) }
{
    let (from, number) = (from.get(), number.get());
    if missing.as_slice().is_empty() {
        return format!(in alloc; "receive: branch {from}, consignment {number}");
    }
    let missing = commas(alloc, missing)?;
    format!(in alloc; "receive: branch {from}, consignment {number}, missing {missing}")
}

pub(crate) fn act_line(alloc: Global, act: &Act) -> Result<String, AllocError>
    ensures { IfOk result (λ s. string_bytes s ≡ act_text (seen_act act.now)) }
{
    match act {
        Act::Customer(it) => {
            let person = &it.person;
            let (first, last) = (person.first.as_str(), person.last.as_str());
            format!(in alloc; "customer: {first} {last}")
        }
        Act::Active { customer, active } => {
            let not = not(*active);
            format!(in alloc; "active: customer {} may {not}rent", customer.get())
        }
        Act::Rent { customer, copy } => {
            format!(in alloc; "rent: customer {}, copy {}", customer.get(), copy.get())
        }
        Act::TakeBack(rental) => format!(in alloc; "return: rental {}", rental.get()),
        Act::Pay {
            customer,
            rental,
            amount,
        } => payment(alloc, *customer, *rental, *amount),
        Act::Import { lot, file: _ } => format!(in alloc; "import: lot {}", lot.as_str()),
        Act::Dispatch { to, copies } => dispatch(alloc, *to, copies),
        Act::Receive {
            from,
            number,
            missing,
        } => receipt(alloc, *from, *number, missing),
        Act::Scrap(copy) => format!(in alloc; "scrap: copy {}", copy.get()),
    }
}

/// Returns what a command asks for, and its moment: `rent: customer 17, copy 4 (1 March 2026, 10:05)`.
pub fn asks_for(alloc: Global, command: &Command) -> Result<String, AllocError>
    ensures { IfOk result (λ s. string_bytes s ≡ command_text (seen_command command.now)) }
{
    let act = act_line(alloc, &command.act)?;
    let at = moment_words(alloc, command.at)?;
    format!(in alloc; "{act} ({at})")
}
