//! The stored form of a branch's commands, and the ranges of their values.

ghost use Rattle.std.specs.Prelude.{◌≡◌, ◌≤◌, ◌<◌, ◌^◌, [], ◌∷◌, ◌++◌, length, IfOk, OnOk};
ghost use Rattle.shop_model.specs.Values.{Pay, Receive};
ghost use Rattle.shop_schema.specs.Forms.{number_form, text_form, numbers_form, joined, option_form, person_form, act_form, command_form, IsStockFile, IsNumberList, IsAct, IsCommand};
ghost use Rattle.shop_schema.specs.RowValues.{IsPerson};
ghost use Rattle.shop_types.specs.Seen.{seen_person, seen_act, seen_command};

use shop_types::{
    Act, Amount, BranchNo, Command, ConsignmentNo, CustomerNo, LineNos, NoMemory, Person, RentalNo,
    RowNumber,
};
use sql_rows::Bytes;
use std::alloc::Global;

pub fn add_number(form: &mut Vec<u8>, number: u32) -> Result<(), NoMemory>
    ensures { OnOk result (form.new.items ≡ form.old.items ++ number_form number) }
{
    let bytes = [
        (number % 256) as u8,
        (number / 256 % 256) as u8,
        (number / 65_536 % 256) as u8,
        (number / 16_777_216) as u8,
    ];
    form.extend_from_slice(&bytes)?;
    Ok(())
}

/// Adds the length, as four bytes, and the bytes.
pub fn add_bytes(form: &mut Vec<u8>, bytes: &[u8]) -> Result<(), NoMemory>
    requires { length bytes.now < 2 ^ 32 }
    ensures { OnOk result (form.new.items ≡ form.old.items ++ text_form bytes.now) }
{
    add_number(form, bytes.len() as u32)?;
    form.extend_from_slice(bytes)?;
    Ok(())
}

pub fn add_text(form: &mut Vec<u8>, text: &str) -> Result<(), NoMemory>
    requires { length text.now < 2 ^ 32 }
    ensures { OnOk result (form.new.items ≡ form.old.items ++ text_form text.now) }
{
    add_bytes(form, text.as_bytes())
}

pub fn add_person(form: &mut Vec<u8>, person: &Person) -> Result<(), NoMemory>
    ensures { OnOk result (form.new.items ≡ form.old.items ++ person_form (seen_person person.now)) }
{
    add_text(form, person.first.as_str())?;
    add_text(form, person.last.as_str())?;
    add_text(form, person.address.as_str())?;
    add_text(form, person.postal.as_str())?;
    add_text(form, person.phone.as_str())?;
    add_number(form, person.city.get())
}

/// Adds how many rentals there are, none or one, and then the number.
fn add_rental(form: &mut Vec<u8>, rental: Option<RentalNo>) -> Result<(), NoMemory>
    ensures { OnOk result (form.new.items ≡ form.old.items ++ option_form rental) }
{
    match rental {
        Some(number) => {
            add_number(form, 1)?;
            add_number(form, number.get())
        }
        None => add_number(form, 0),
    }
}

/// Adds how many numbers there are, and then each.
fn add_numbers<const KIND: u8>(
    form: &mut Vec<u8>,
    numbers: &[RowNumber<KIND>],
) -> Result<(), NoMemory>
    requires { length numbers.now < 2 ^ 32 }
    ensures { OnOk result (form.new.items ≡ form.old.items ++ numbers_form numbers.now) }
{
    add_number(form, numbers.len() as u32)?;
    for number in numbers {
        add_number(form, number.get())?;
    }
    Ok(())
}

/// Adds the act's byte and a number.
pub fn add_one(form: &mut Vec<u8>, act: u8, number: u32) -> Result<(), NoMemory>
    ensures { OnOk result (form.new.items ≡ form.old.items ++ act ∷ number_form number) }
{
    form.extend_from_slice(&[act])?;
    add_number(form, number)
}

/// Adds the act's byte and two numbers.
pub fn add_pair(form: &mut Vec<u8>, act: u8, one: u32, other: u32) -> Result<(), NoMemory>
    ensures { OnOk result (form.new.items ≡ form.old.items ++ act ∷ joined (number_form one ∷ number_form other ∷ [])) }
{
    add_one(form, act, one)?;
    add_number(form, other)
}

/// Adds a payment: the act's byte and the customer, the rental if there is one, and the amount.
fn add_payment(
    form: &mut Vec<u8>,
    customer: CustomerNo,
    rental: Option<RentalNo>,
    amount: Amount,
) -> Result<(), NoMemory>
    ensures { OnOk result (form.new.items ≡ form.old.items ++ act_form (Pay customer rental amount)) }
{
    add_one(form, 5, customer.get())?;
    add_rental(form, rental)?;
    add_number(form, amount.get())
}

/// Adds a consignment's number and the missing lines.
fn add_lines(form: &mut Vec<u8>, number: ConsignmentNo, missing: &LineNos) -> Result<(), NoMemory>
    ensures { OnOk result (form.new.items
        ≡ form.old.items ++ joined (number_form number ∷ numbers_form missing.now ∷ [])) }
{
    add_number(form, number.get())?;
    add_numbers(form, missing.as_slice())
}

fn add_act(form: &mut Vec<u8>, act: &Act) -> Result<(), NoMemory>
    ensures { OnOk result (form.new.items ≡ form.old.items ++ act_form (seen_act act.now)) }
{
    match act {
        Act::Customer(it) => {
            form.extend_from_slice(&[1])?;
            add_person(form, &it.person)
        }
        Act::Active { customer, active } => {
            add_one(form, 2, customer.get())?;
            form.extend_from_slice(&[u8::from(*active)])?;
            Ok(())
        }
        Act::Rent { customer, copy } => add_pair(form, 3, customer.get(), copy.get()),
        Act::TakeBack(rental) => add_one(form, 4, rental.get()),
        Act::Pay {
            customer,
            rental,
            amount,
        } => add_payment(form, *customer, *rental, *amount),
        Act::Import { lot, file } => {
            form.extend_from_slice(&[6])?;
            add_text(form, lot.as_str())?;
            add_bytes(form, file.as_slice())
        }
        Act::Dispatch { to, copies } => {
            add_one(form, 7, to.get())?;
            add_numbers(form, copies.as_slice())
        }
        Act::Receive {
            from,
            number,
            missing,
        } => {
            add_one(form, 8, from.get())?;
            add_lines(form, *number, missing)
        }
        Act::Scrap(copy) => add_one(form, 9, copy.get()),
    }
}

/// Returns the bytes by which the command is kept: all of it but its key. Under one key, two commands have the same
/// bytes exactly if they are one command.
pub fn command_form(alloc: Global, command: &Command) -> Result<Bytes, NoMemory>
    ensures { IfOk result (λ form. form ≡ command_form (seen_command command.now)) }
{
    let mut form = Vec::new(alloc);
    add_number(&mut form, command.staff.get())?;
    form.extend_from_slice(command.at.text().as_slice())?;
    add_act(&mut form, &command.act)?;
    Ok(Bytes::new(form))
}

// ---- ranges

pub fn person_values(person: &Person)
    ensures { IsPerson (seen_person person.now) }
{
    let _first = person.first.as_str();
    let _last = person.last.as_str();
    let _address = person.address.as_str();
    let _postal = person.postal.as_str();
    let _phone = person.phone.as_str();
    let _city = person.city.get();
}

/// Shows that any 65,536 bytes or fewer are a stock file.
fn bytes_values(bytes: &[u8])
    requires { length bytes.now ≤ 65_536 }
    ensures { IsStockFile bytes.now }
{}

/// Shows that 65,536 rows' numbers or fewer are a list that a command may have.
fn numbers_values<const KIND: u8>(numbers: &[RowNumber<KIND>])
    requires { length numbers.now ≤ 65_536 }
    ensures { IsNumberList numbers.now }
{
    for number in numbers {
        let _number = number.get();
    }
}

fn payment_values(customer: CustomerNo, rental: Option<RentalNo>, amount: Amount)
    ensures { IsAct (Pay customer rental amount) }
{
    let _customer = customer.get();
    if let Some(number) = rental {
        let _rental = number.get();
    }
    let _amount = amount.get();
}

fn receipt_values(from: BranchNo, number: ConsignmentNo, missing: &LineNos)
    ensures { IsAct (Receive from number missing.now) }
{
    let _from = from.get();
    let _number = number.get();
    numbers_values(missing.as_slice());
}

fn act_values(act: &Act)
    ensures { IsAct (seen_act act.now) }
{
    match act {
        Act::Customer(it) => person_values(&it.person),
        Act::Active { customer, .. } => {
            let _customer = customer.get();
        }
        Act::Rent { customer, copy } => {
            let _customer = customer.get();
            let _copy = copy.get();
        }
        Act::TakeBack(rental) => {
            let _rental = rental.get();
        }
        Act::Pay {
            customer,
            rental,
            amount,
        } => payment_values(*customer, *rental, *amount),
        Act::Import { lot, file } => {
            let _lot = lot.as_str();
            bytes_values(file.as_slice());
        }
        Act::Dispatch { to, copies } => {
            let _to = to.get();
            numbers_values(copies.as_slice());
        }
        Act::Receive {
            from,
            number,
            missing,
        } => receipt_values(*from, *number, missing),
        Act::Scrap(copy) => {
            let _copy = copy.get();
        }
    }
}

/// Shows that tables can hold a command's values. This is a law: it does nothing.
pub fn command_values(command: &Command)
    ensures { IsCommand (seen_command command.now) }
{
    let _key = command.key.as_str();
    let _staff = command.staff.get();
    let _text = command.at.text();
    act_values(&command.act);
}
