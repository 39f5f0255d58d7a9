//! Commands of a counter: of each its route, and what its body says.

ghost use Rattle.std.specs.Prelude.{◌≡◌, ◌≤◌, length, IfOk, IfErr, Some, None};
ghost use Rattle.serde_json.specs.View.{view};
ghost use Rattle.shop_types.specs.Seen.{seen_act, seen_command};
ghost use Rattle.counter_routes.specs.Commands.{member_count, act_at, giver_at, command_in};
ghost use Rattle.counter_routes.specs.Readings.{written_in};
ghost use Rattle.counter_routes.specs.Sizes.{size};
ghost use Rattle.counter_routes.specs.declared.bodies.BodyFault.TheVariants.{BadBody};

use crate::bodies::{
    BodyFault, amount, flag, has_members, key, moment, number, numbers, person, rental_or_none,
    value_of,
};
use crate::paths::{Pattern, Route};
use serde_json::Value;
use shop_types::{Act, Command, Moment, NewCustomer, StaffNo};
use std::alloc::Global;

/// What a command's body says, beside who gives the command and when.
#[derive(Clone, Copy)]
pub(crate) enum CommandForm {
    NewCustomer,
    Active,
    Rent,
    Return,
    Pay,
    Dispatch,
    Receive,
    Scrap,
}

/// The routes of commands. The parts of an import stand in its path, since its body is a file.
pub(crate) const POST_ROUTES: [Pattern; 9] = [
    Pattern("/customer", Route::Command(CommandForm::NewCustomer)),
    Pattern("/import/{key}/{staff}/{at}/{lot}", Route::Import),
    Pattern("/customer-active", Route::Command(CommandForm::Active)),
    Pattern("/rent", Route::Command(CommandForm::Rent)),
    Pattern("/return", Route::Command(CommandForm::Return)),
    Pattern("/pay", Route::Command(CommandForm::Pay)),
    Pattern("/dispatch", Route::Command(CommandForm::Dispatch)),
    Pattern("/receive", Route::Command(CommandForm::Receive)),
    Pattern("/scrap", Route::Command(CommandForm::Scrap)),
];

/// Returns how many members a body of the form has.
fn member_count(form: CommandForm) -> usize
    ensures { result ≡ member_count form }
{
    match form {
        CommandForm::NewCustomer => 9,
        CommandForm::Pay | CommandForm::Receive => 6,
        CommandForm::Active | CommandForm::Rent | CommandForm::Dispatch => 5,
        CommandForm::Return | CommandForm::Scrap => 4,
    }
}

/// Returns what a command of the form does, by the members that say it.
fn act(alloc: Global, form: CommandForm, value: &Value) -> Result<Act, BodyFault>
    requires { size (view value.now) ≤ 65_537 }
    ensures ok { IfOk result (λ act. act_at form (view value.now) ≡ Some (seen_act act)) }
    ensures bad { IfErr result (λ fault. fault ≡ BadBody → act_at form (view value.now) ≡ None) }
{
    match form {
        CommandForm::NewCustomer => Ok(Act::Customer(NewCustomer {
            person: person(alloc, value)?,
        })),
        CommandForm::Active => Ok(Act::Active {
            customer: number(value, "customer")?,
            active: flag(value, "active")?,
        }),
        CommandForm::Rent => Ok(Act::Rent {
            customer: number(value, "customer")?,
            copy: number(value, "copy")?,
        }),
        CommandForm::Return => Ok(Act::TakeBack(number(value, "rental")?)),
        CommandForm::Pay => Ok(Act::Pay {
            customer: number(value, "customer")?,
            rental: rental_or_none(value)?,
            amount: amount(value)?,
        }),
        CommandForm::Dispatch => Ok(Act::Dispatch {
            to: number(value, "to")?,
            copies: numbers(alloc, value, "copies")?,
        }),
        CommandForm::Receive => Ok(Act::Receive {
            from: number(value, "from")?,
            number: number(value, "number")?,
            missing: numbers(alloc, value, "missing")?,
        }),
        CommandForm::Scrap => Ok(Act::Scrap(number(value, "copy")?)),
    }
}

/// Reads who gives the command, and when, if the body has so many members.
fn giver(value: &Value, count: usize) -> Result<(StaffNo, Moment), BodyFault>
    ensures ok { IfOk result (λ giver. giver_at count (view value.now) ≡ Some giver) }
    ensures bad { IfErr result (λ fault. fault ≡ BadBody → giver_at count (view value.now) ≡ None) }
{
    if !has_members(value, count) {
        return Err(BodyFault::BadBody);
    }
    let staff = number(value, "staff")?;
    let at = moment(value).ok_or(BodyFault::BadBody)?;
    Ok((staff, at))
}

/// Returns the command of the form that a value writes.
#[tactic(auto, unfolding(crate::specs::Commands::command_in))]
fn command(alloc: Global, form: CommandForm, value: &Value) -> Result<Command, BodyFault>
    requires { size (view value.now) ≤ 65_537 }
    ensures ok { IfOk result (λ command. command_in form (view value.now) ≡ Some (seen_command command)) }
    ensures bad { IfErr result (λ fault. fault ≡ BadBody → command_in form (view value.now) ≡ None) }
{
    let (staff, at) = giver(value, member_count(form))?;
    let key = key(alloc, value)?;
    let act = act(alloc, form, value)?;
    Ok(Command {
        key,
        staff,
        at,
        act,
    })
}

/// Returns the command of the form that a body writes.
pub(crate) fn body_command(
    alloc: Global,
    form: CommandForm,
    body: &[u8],
) -> Result<Command, BodyFault>
    requires { length body.now ≤ 65_536 }
    ensures ok { IfOk result (λ command. written_in (command_in form) body.now ≡ Some (seen_command command)) }
    ensures bad { IfErr result (λ fault. fault ≡ BadBody → written_in (command_in form) body.now ≡ None) }
{
    command(alloc, form, &value_of(alloc, body)?)
}
