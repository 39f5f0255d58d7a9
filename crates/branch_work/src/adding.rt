//! Carries out an accepted command's act: writes its rows and counts them, and makes the body of the reply. Also keeps
//! the command.

ghost use Rattle.std.specs.Prelude.{◌≡◌, true, IfOk};
ghost use Rattle.sql_rows.specs.Calls.{DoesWithin};
ghost use Rattle.shop_types.specs.Seen.{seen_act, seen_command, seen_customer, seen_new_customer};
ghost use Rattle.shop_schema.specs.Forms.{command_form};
ghost use Rattle.branch_work.specs.Acts.{Keeps, Takes, CarriesOut};
ghost use Rattle.shop_model.specs.Values as model;

use crate::consigning::{dispatch, receive};
use crate::importing::import;
use branch_core::RowsFound;
use shop_ledger::{Count, CountKind, Owner, drop_out, put_kept, put_out, set_last, take_numbers};
use shop_store::copies::set_state;
use shop_store::customers::{CustomerRow, put_customer, set_active};
use shop_store::payments::{PaymentRow, put_payment};
use shop_store::rentals::{RentalRow, put_rental, set_returned};
use shop_store::terms::{TermsRow, put_terms};
use shop_types::{
    Act, Amount, BranchNo, Command, CopyNo, CopyState, Customer, CustomerNo, Moment, NewCustomer,
    Payment, Rental, RentalNo, RowNumber,
};
use shop_views::{Field, number_text, object_text};
use sql_rows::{Bytes, StoreFault};
use sqlite::{Alter, Transaction};
use std::alloc::{AllocError, Global};

/// Carries out an accepted command's act, by what was found of the rows that it names. Returns the body of its reply.
pub fn carry_out<S: Alter>(
    alloc: Global,
    tx: &mut Transaction<'_, S>,
    branch: BranchNo,
    command: &Command,
    found: &RowsFound,
) -> Result<String, StoreFault>
    ensures { CarriesOut S.Store tx.old.conn tx.new.conn branch (seen_command command.now)
        (seen_act command.now.act) found.now result }
{
    match &command.act {
        Act::Customer(it) => add_customer(alloc, tx, branch, command, it),
        Act::Active { customer, active } => put_active(alloc, tx, branch, *customer, *active),
        Act::Rent { customer, copy } => {
            add_rental(alloc, tx, branch, command, *customer, *copy, found)
        }
        Act::TakeBack(rental) => take_back(alloc, tx, branch, command, *rental, found),
        Act::Pay {
            customer,
            rental,
            amount,
        } => add_payment(alloc, tx, branch, command, *customer, *rental, *amount),
        Act::Import { lot, .. } => import(alloc, tx, branch, lot, found),
        Act::Dispatch { to, copies } => dispatch(alloc, tx, branch, *to, copies.as_slice(), found),
        Act::Receive {
            from,
            number,
            missing,
        } => receive(alloc, tx, branch, *from, *number, missing.as_slice(), found),
        Act::Scrap(copy) => scrap(alloc, tx, branch, *copy),
    }
}

/// Keeps an accepted command with its reply, and makes its moment the branch's last.
pub fn keep<S: Alter>(
    tx: &mut Transaction<'_, S>,
    branch: BranchNo,
    command: &Command,
    form: &Bytes,
    reply: &str,
) -> Result<(), StoreFault>
    requires { form.now ≡ command_form (seen_command command.now) }
    ensures { DoesWithin S.Store tx.old.conn tx.new.conn result
        (λ _. Keeps branch (seen_command command.now) reply.now) }
{
    take_numbers(tx, Count::Of(branch, CountKind::Kept), 1)?;
    put_kept(tx, Owner::Branch(branch), &command.key, form, reply)?;
    set_last(tx, branch, command.at)
}

/// Returns the number of the branch's next row of the kind, and counts the row.
fn next_number<const KIND: u8, S: Alter>(
    tx: &mut Transaction<'_, S>,
    branch: BranchNo,
    kind: CountKind,
) -> Result<RowNumber<KIND>, StoreFault>
    ensures { DoesWithin S.Store tx.old.conn tx.new.conn result
        (Takes branch kind) }
{
    let number = take_numbers(tx, Count::Of(branch, kind), 1)?;
    match RowNumber::new(number) {
        Some(number) => Ok(number),
        None => Err(StoreFault::Failed),
    }
}

/// Returns the customer that a command of that moment adds. The customer is active.
fn new_customer(it: &NewCustomer, at: Moment) -> Result<Customer, AllocError>
    ensures { IfOk result (λ customer. seen_customer customer ≡ model.new_customer at (seen_new_customer it.now)) }
{
    Ok(Customer {
        person: it.person.clone()?,
        active: true,
        created: at,
    })
}

fn add_customer<S: Alter>(
    alloc: Global,
    tx: &mut Transaction<'_, S>,
    branch: BranchNo,
    command: &Command,
    it: &NewCustomer,
) -> Result<String, StoreFault>
    ensures { (found : _) → CarriesOut S.Store tx.old.conn tx.new.conn branch (seen_command command.now)
        (model.AddCustomer (seen_new_customer it.now)) found result }
{
    let customer = new_customer(it, command.at)?;
    let number = next_number(tx, branch, CountKind::Customers)?;
    let row = CustomerRow {
        branch,
        number,
        customer,
    };
    put_customer(tx, &row)?;
    Ok(number_text(alloc, "customer", number)?)
}

fn put_active<S: Alter>(
    alloc: Global,
    tx: &mut Transaction<'_, S>,
    branch: BranchNo,
    customer: CustomerNo,
    active: bool,
) -> Result<String, StoreFault>
    ensures { (command : _) (found : _) → CarriesOut S.Store tx.old.conn tx.new.conn branch command
        (model.SetActive customer active) found result }
{
    set_active(tx, branch, customer, active)?;
    let members = [
        Field::Flag("active", active),
        Field::Number("customer", customer.get() as u64),
    ];
    Ok(object_text(alloc, &members)?)
}

/// Adds an open rental, with the terms of its copy's film under the same number. Records that the copy is out. The copy
/// was found before.
fn add_rental<S: Alter>(
    alloc: Global,
    tx: &mut Transaction<'_, S>,
    branch: BranchNo,
    command: &Command,
    customer: CustomerNo,
    copy: CopyNo,
    found: &RowsFound,
) -> Result<String, StoreFault>
    ensures { CarriesOut S.Store tx.old.conn tx.new.conn branch (seen_command command.now)
        (model.Rent customer copy) found.now result }
{
    let Some(found) = found.copy else {
        return Err(StoreFault::Failed);
    };
    let number = next_number(tx, branch, CountKind::Rentals)?;
    let rental = Rental {
        rented: command.at,
        copy,
        customer,
        returned: None,
        staff: command.staff,
    };
    let row = RentalRow {
        branch,
        number,
        rental,
    };
    put_rental(tx, &row)?;
    let terms = TermsRow {
        branch,
        rental: number,
        terms: found.terms,
    };
    put_terms(tx, &terms)?;
    put_out(tx, branch, copy, number)?;
    Ok(number_text(alloc, "rental", number)?)
}

/// Sets when the rental's copy came back. Records that the copy isn't out. The rental was found before.
fn take_back<S: Alter>(
    alloc: Global,
    tx: &mut Transaction<'_, S>,
    branch: BranchNo,
    command: &Command,
    rental: RentalNo,
    found: &RowsFound,
) -> Result<String, StoreFault>
    ensures { CarriesOut S.Store tx.old.conn tx.new.conn branch (seen_command command.now)
        (model.TakeBack rental) found.now result }
{
    let Some(found) = found.rental else {
        return Err(StoreFault::Failed);
    };
    set_returned(tx, branch, rental, command.at)?;
    drop_out(tx, branch, found.copy, rental)?;
    Ok(number_text(alloc, "returned", rental)?)
}

fn add_payment<S: Alter>(
    alloc: Global,
    tx: &mut Transaction<'_, S>,
    branch: BranchNo,
    command: &Command,
    customer: CustomerNo,
    rental: Option<RentalNo>,
    amount: Amount,
) -> Result<String, StoreFault>
    ensures { (found : _) → CarriesOut S.Store tx.old.conn tx.new.conn branch (seen_command command.now)
        (model.Pay customer rental amount) found result }
{
    let number = next_number(tx, branch, CountKind::Payments)?;
    let payment = Payment {
        customer,
        staff: command.staff,
        rental,
        amount,
        paid: command.at,
    };
    let row = PaymentRow {
        branch,
        number,
        payment,
    };
    put_payment(tx, &row)?;
    Ok(number_text(alloc, "payment", number)?)
}

fn scrap<S: Alter>(
    alloc: Global,
    tx: &mut Transaction<'_, S>,
    branch: BranchNo,
    copy: CopyNo,
) -> Result<String, StoreFault>
    ensures { (command : _) (found : _) → CarriesOut S.Store tx.old.conn tx.new.conn branch command
        (model.Scrap copy) found result }
{
    set_state(tx, branch, copy, CopyState::Scrapped)?;
    Ok(number_text(alloc, "scrapped", copy)?)
}
