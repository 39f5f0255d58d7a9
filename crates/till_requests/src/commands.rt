//! Builds a command's request.

ghost use Rattle.std.specs.Prelude.{◌≡◌, true, IfOk, string_bytes};
ghost use Rattle.shop_types.specs.Seen.{seen_act, seen_command};
ghost use Rattle.till_client.specs.Sealing.{SaysCommand};
ghost use Rattle.till_model.specs.Numbered.{key_of};
ghost use Rattle.till_requests.specs.Requests.{command_with};

use crate::bodies::{Giver, body_of, target_of};
use crate::marks::TillMark;
use crate::same::is_same_act;
use counter_routes::Routes;
use shop_types::{Act, Command, Moment, StaffNo, Token};
use std::alloc::{AllocError, Global};
use till_client::{NotSealed, Sealed, post_bytes, seal};

/// Why a request wasn't made.
#[derive(Clone, Copy, Debug, PartialEq, Eq)]
pub enum NotBuilt {
    /// The server would read something else in the request. Only lists of numbers whose text is longer than a body may
    /// be are known to cause this.
    Other,
    /// Out of memory.
    Memory,
}

impl From<AllocError> for NotBuilt {
    fn from(_error: AllocError) -> NotBuilt {
        NotBuilt::Memory
    }
}

/// Returns the key of the entry with that number: the till's mark, a hyphen and the number.
pub fn key_text(alloc: Global, mark: &TillMark, number: u32) -> Result<String, AllocError>
    ensures { IfOk result (λ key. string_bytes key ≡ key_of mark.now number) }
{
    let mut digits = itoa::Buffer::new();
    let mut key = String::from_str(alloc, mark.as_str())?;
    key.push_str("-")?;
    key.push_str(digits.format(number))?;
    Ok(key)
}

/// Returns true only if the command is the giver's and does that act.
fn is_wanted(command: &Command, giver: &Giver, act: &Act) -> bool
    ensures { result ≡ true → seen_command command.now ≡ command_with giver.now (seen_act act.now) }
{
    command.key.as_str() == giver.key.as_str()
        && command.staff == giver.staff
        && command.at == giver.at
        && is_same_act(&command.act, act)
}

/// Returns the bytes if they say the giver's command to the server.
fn checked(
    alloc: Global,
    routes: &Routes,
    token: &Token,
    giver: &Giver,
    act: &Act,
    bytes: Vec<u8>,
) -> Result<Vec<u8>, NotBuilt>
    ensures { IfOk result (λ it. SaysCommand it.items token.now (command_with giver.now (seen_act act.now))) }
{
    let Sealed { bytes, command } = match seal(alloc, routes, token.as_bytes().as_slice(), bytes) {
        Ok(sealed) => sealed,
        Err(NotSealed::Other) => return Err(NotBuilt::Other),
        Err(NotSealed::Memory) => return Err(NotBuilt::Memory),
    };
    if !is_wanted(&command, giver, act) {
        return Err(NotBuilt::Other);
    }
    Ok(bytes)
}

/// Builds the request of a giver's command.
fn built(
    alloc: Global,
    routes: &Routes,
    token: &Token,
    giver: &Giver,
    act: &Act,
) -> Result<Vec<u8>, NotBuilt>
    ensures { IfOk result (λ it. SaysCommand it.items token.now (command_with giver.now (seen_act act.now))) }
{
    let target = target_of(alloc, giver, act)?;
    let body = body_of(alloc, giver, act)?;
    let bytes = post_bytes(
        alloc,
        token.as_bytes().as_slice(),
        target.as_str().as_bytes(),
        body.as_slice(),
    )?;
    checked(alloc, routes, token, giver, act, bytes)
}

/// Builds the request of a till's command: its whole bytes, for a connection of its own. `number` is the number that
/// the command's entry will have, `mark` the till's mark and `token` its token.
///
/// The bytes are read back by the server's own readers before they are returned: they say just that command.
pub fn command_request(
    alloc: Global,
    routes: &Routes,
    token: &Token,
    mark: &TillMark,
    number: u32,
    staff: StaffNo,
    at: Moment,
    act: &Act,
) -> Result<Vec<u8>, NotBuilt>
    ensures { IfOk result (λ bytes. SaysCommand bytes.items token.now
        (record { key = key_of mark.now number; staff = staff; moment = at; act = seen_act act.now })) }
{
    let giver = Giver {
        key: key_text(alloc, mark, number)?,
        staff,
        at,
    };
    built(alloc, routes, token, &giver, act)
}
