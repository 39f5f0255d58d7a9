//! Requests that the server's own reader accepts.

ghost use Rattle.std.specs.Prelude.{◌≡◌, IfOk, IfErr, IfSome, IfNone, ℕ, List, Option, Some, None, option_map};
ghost use Rattle.http_messages.specs.Message.{Message};
ghost use Rattle.http_messages.specs.Shown.{message_of};
ghost use Rattle.shop_model.specs.Values.{Command as Written};
ghost use Rattle.shop_model.specs.Machine.{Do};
ghost use Rattle.shop_types.specs.Seen.{seen_command};
ghost use Rattle.counter_routes.specs.Readings.{Reads};
ghost use Rattle.till_client.specs.Sealing.{IsSole, SaysCommand, IsUnsealed};

use counter_routes::{Reading, Routes};
use http_messages::{MessageReading, Request as MessageSlices, read_request};
use shop_types::{Caller, Command, Line, OfficeWords, Request, RowNumber, Usage};
use std::alloc::Global;

/// Reads no word of head office: a till asks for none.
struct NoWords;

impl OfficeWords for NoWords {
    ghost meaning = { λ _ _. None };

    fn read(&self, _words: &[String]) -> Result<Line, Usage> {
        Err(Usage::Memory)
    }
}

/// A request's bytes, and the command that they say.
#[derive(Drop)]
pub struct Sealed {
    pub bytes: Vec<u8>,
    pub command: Command,
}

/// Why bytes are no command's request.
#[derive(Debug, Drop)]
pub enum NotSealed {
    /// The bytes say something else than one whole command with the given token.
    Other,
    /// There was no memory.
    Memory,
}

/// Returns the message that the bytes are, whole, if it has this token and the connection ends after its reply.
fn sole_message<'b>(token: &[u8], bytes: &'b [u8]) -> Option<MessageSlices<'b>>
    ensures some { IfSome result (λ it. IsSole bytes.now token.now (message_of it)) }
    ensures none { IfNone result ((message : Message) → ¬ (IsSole bytes.now token.now message)) }
{
    let MessageReading::Whole(message, len) = read_request(bytes) else {
        return None;
    };
    let Some(digits) = message.token else {
        return None;
    };
    if len != bytes.len() || digits != token || !message.closes {
        return None;
    }
    Some(message)
}

/// Returns the command that was read, if it is one.
fn command_read(reading: Reading) -> Option<Command>
    ensures some { IfSome result (λ command. Reads reading (Do (seen_command command))) }
    ensures none { IfNone result ((written : Written) → ¬ (Reads reading (Do written))) }
{
    match reading {
        Reading::Asked(request) => match request {
            Request::Do(command) => Some(command),
            Request::Look(_) | Request::View(_) => None,
            Request::Office(_) | Request::OfficeLook(_) => None,
        },
        Reading::Refused(_) => None,
    }
}

fn command_in(
    alloc: Global,
    routes: &Routes,
    token: &[u8],
    bytes: &[u8],
) -> Result<Command, NotSealed>
    ensures ok { IfOk result (λ command. SaysCommand bytes.now token.now (seen_command command)) }
    ensures err { IfErr result (λ fault. IsUnsealed fault bytes.now token.now) }
{
    let Some(message) = sole_message(token, bytes) else {
        return Err(NotSealed::Other);
    };
    let Some(number) = RowNumber::new(1) else {
        return Err(NotSealed::Memory);
    };
    let Ok(reading) = routes.read(alloc, &NoWords, &message, Caller::Branch(number)) else {
        return Err(NotSealed::Memory);
    };
    match command_read(reading) {
        Some(command) => Ok(command),
        None => Err(NotSealed::Other),
    }
}

/// Returns the command that the bytes say to the server, with whatever token.
pub fn command_of(alloc: Global, routes: &Routes, bytes: &[u8]) -> Result<Command, NotSealed>
    ensures ok { IfOk result (λ command. (token : List ℕ) × SaysCommand bytes.now token (seen_command command)) }
    ensures err { IfErr result (λ fault. (token : List ℕ) → IsUnsealed fault bytes.now token) }
{
    let MessageReading::Whole(message, _) = read_request(bytes) else {
        return Err(NotSealed::Other);
    };
    let Some(token) = message.token else {
        return Err(NotSealed::Other);
    };
    command_in(alloc, routes, token, bytes)
}

/// Reads the bytes by the server's own readers, and returns them with their command. They have to say a command with
/// this token, sent over a connection of its own. If they don't, drops them and fails.
pub fn seal(
    alloc: Global,
    routes: &Routes,
    token: &[u8],
    bytes: Vec<u8>,
) -> Result<Sealed, NotSealed>
    ensures ok { IfOk result (λ sealed. (sealed.bytes ≡ bytes)
        × SaysCommand sealed.bytes.items token.now (seen_command sealed.command)) }
    ensures err { IfErr result (λ fault. IsUnsealed fault bytes.items token.now) }
{
    let command = command_in(alloc, routes, token, bytes.as_slice())?;
    Ok(Sealed { bytes, command })
}
