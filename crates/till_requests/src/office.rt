//! Builds requests to a running server from head office's words.

ghost use Rattle.std.specs.Prelude.{◌≡◌, IfErr, IfOk, IfSome, List, Some, map, string_bytes};
ghost use Rattle.shop_model.specs.Values.{Text};
ghost use Rattle.shop_model.specs.Machine.{Office, OfficeLook};
ghost use Rattle.shop_types.specs.Seen.{seen_office, seen_office_ask, seen_request};
ghost use Rattle.till_model.specs.Numbered.{key_of};
ghost use Rattle.till_requests.specs.declared.office.NotSaid.TheVariants as unsaid;
ghost use Rattle.till_requests.specs.Requests.{AsksOffice, IsFaultOf, SaysOffice, SaysOfficeLook, is_reading, with_key};
ghost use Rattle.counter_routes.specs.Words.{texts_of};

use crate::commands::key_text;
use crate::marks::TillMark;
use crate::sole::sole_message;
use counter_routes::{Reading, Routes};
use office_words::{ClapWords, is_reading, read_words};
use serde_json::Value;
use shop_types::{Caller, OfficeAsk, OfficeCommand, Request, Token, Usage};
use std::alloc::{AllocError, Global};
use till_client::post_bytes;

/// Why no request was made from the words.
#[derive(Drop)]
pub enum NotSaid {
    /// The words are no command or reading of head office. The text says how to give the words.
    Usage(String),
    /// The server would read something else in the request, or the words ask for what only the program itself can do.
    Other,
    /// Out of memory.
    Memory,
}

impl From<AllocError> for NotSaid {
    ghost from_gives = { λ _ fault. fault ≡ unsaid.Memory };

    fn from(_error: AllocError) -> NotSaid {
        NotSaid::Memory
    }
}

/// A request of head office, and the command that it says.
#[derive(Drop)]
pub struct OfficeSealed {
    pub bytes: Vec<u8>,
    pub command: OfficeCommand,
}

/// A request of head office, and the reading that it says.
#[derive(Drop)]
pub struct OfficeLookSealed {
    pub bytes: Vec<u8>,
    pub ask: OfficeAsk,
}

/// Returns whether the words ask for a reading. A reading has no key.
pub fn is_office_look(words: &[String]) -> bool
    ensures { result ≡ is_reading (map string_bytes words.now) }
{
    match words {
        [first, ..] => is_reading(first.as_str()),
        [] => false,
    }
}

/// Returns the words as a JSON list.
fn list_text(alloc: Global, words: &[String]) -> Result<Vec<u8>, AllocError>
    ensures { IfOk result (λ body. texts_of body.items ≡ Some (map string_bytes words.now)) }
{
    let mut list = Vec::with_capacity(alloc, words.len())?;
    for word in words {
        list.push_reserved(Value::try_from_str(alloc, word.as_str())?);
    }
    Value::Array(list).to_vec(alloc)
}

/// Copies the words.
fn copied(alloc: Global, words: &[String]) -> Result<Vec<String>, AllocError>
    ensures { IfOk result (λ all. map string_bytes all.items ≡ map string_bytes words.now) }
{
    let mut all = Vec::with_capacity(alloc, words.len())?;
    for word in words {
        all.push_reserved(String::from_str(alloc, word.as_str())?);
    }
    Ok(all)
}

/// Returns the words followed by `--key` and the key.
fn keyed(alloc: Global, words: &[String], key: &str) -> Result<Vec<String>, AllocError>
    ensures { IfOk result (λ all. map string_bytes all.items ≡ with_key key.now (map string_bytes words.now)) }
{
    let mut all = copied(alloc, words)?;
    let name = String::from_str(alloc, "--key")?;
    let key = String::from_str(alloc, key)?;
    all.push(name)?;
    all.push(key)?;
    Ok(all)
}

/// Fails with the text about what is wrong with the words, if `clap` refuses them.
fn usage_of(alloc: Global, words: &[String]) -> Result<(), NotSaid>
    ensures { IfErr result (IsFaultOf (map string_bytes words.now)) }
{
    match read_words(alloc, words) {
        Ok(_) => Ok(()),
        Err(Usage::Words(text)) => Err(NotSaid::Usage(text)),
        Err(Usage::Memory) => Err(NotSaid::Memory),
    }
}

/// Returns what the bytes ask of head office, if they are one message with that token and that body, for a connection
/// of its own.
fn asked_in(
    alloc: Global,
    routes: &Routes,
    token: &Token,
    bytes: &[u8],
    body: &[u8],
) -> Result<Request, NotSaid>
    ensures asks { IfOk result (λ request. (words : List Text) → texts_of body.now ≡ Some words
        → AsksOffice bytes.now token.now words (seen_request request)) }
    ensures fault { IfErr result (λ fault. (words : List Text) → IsFaultOf words fault) }
{
    let Some(message) = sole_message(token.as_bytes().as_slice(), bytes) else {
        return Err(NotSaid::Other);
    };
    if message.body != body {
        return Err(NotSaid::Other);
    }
    match routes.read(alloc, &ClapWords { alloc }, &message, Caller::Office) {
        Ok(Reading::Asked(request)) => Ok(request),
        Ok(Reading::Refused(_)) => Err(NotSaid::Other),
        Err(_) => Err(NotSaid::Memory),
    }
}

/// A request of head office, and its body.
#[derive(Drop)]
struct Posted {
    bytes: Vec<u8>,
    body: Vec<u8>,
}

/// Returns the bytes of a request with these words, if the words are a line.
fn words_posted(alloc: Global, token: &Token, words: &[String]) -> Result<Posted, NotSaid>
    ensures listed { IfOk result (λ it. texts_of it.body.items ≡ Some (map string_bytes words.now)) }
    ensures fault { IfErr result (IsFaultOf (map string_bytes words.now)) }
{
    usage_of(alloc, words)?;
    let body = list_text(alloc, words)?;
    let digits = token.as_bytes().as_slice();
    let bytes = post_bytes(alloc, digits, b"/office", body.as_slice())?;
    Ok(Posted { bytes, body })
}

/// Returns the command, if the request is a command of head office.
fn command_of(request: Request) -> Option<OfficeCommand>
    ensures { IfSome result (λ command. seen_request request ≡ Office (seen_office command)) }
{
    match request {
        Request::Office(command) => Some(command),
        Request::Do(_) | Request::Look(_) => None,
        Request::View(_) | Request::OfficeLook(_) => None,
    }
}

/// Returns the reading, if the request is a reading of head office.
fn look_of(request: Request) -> Option<OfficeAsk>
    ensures { IfSome result (λ ask. seen_request request ≡ OfficeLook (seen_office_ask ask)) }
{
    match request {
        Request::OfficeLook(ask) => Some(ask),
        Request::Do(_) | Request::Look(_) => None,
        Request::View(_) | Request::Office(_) => None,
    }
}

/// Returns the command that the request says, if the command has that key.
fn command_said(
    alloc: Global,
    routes: &Routes,
    token: &Token,
    posted: &Posted,
    key: &str,
) -> Result<OfficeCommand, NotSaid>
    ensures says { IfOk result (λ command. (words : List Text) → texts_of posted.now.body.items ≡ Some words
        → SaysOffice posted.now.bytes.items token.now words (seen_office command)) }
    ensures key { IfOk result (λ command. command.key ≡ key.now) }
    ensures fault { IfErr result (λ fault. (words : List Text) → IsFaultOf words fault) }
{
    let bytes = posted.bytes.as_slice();
    let request = asked_in(alloc, routes, token, bytes, posted.body.as_slice())?;
    let Some(command) = command_of(request) else {
        return Err(NotSaid::Other);
    };
    if command.key.as_str() != key {
        return Err(NotSaid::Other);
    }
    Ok(command)
}

/// Returns the reading that the request says.
fn look_said(
    alloc: Global,
    routes: &Routes,
    token: &Token,
    posted: &Posted,
) -> Result<OfficeAsk, NotSaid>
    ensures says { IfOk result (λ ask. (words : List Text) → texts_of posted.now.body.items ≡ Some words
        → SaysOfficeLook posted.now.bytes.items token.now words (seen_office_ask ask)) }
    ensures fault { IfErr result (λ fault. (words : List Text) → IsFaultOf words fault) }
{
    let bytes = posted.bytes.as_slice();
    let request = asked_in(alloc, routes, token, bytes, posted.body.as_slice())?;
    let Some(ask) = look_of(request) else {
        return Err(NotSaid::Other);
    };
    Ok(ask)
}

/// Builds the request of a command of head office: its whole bytes, for a connection of its own, and the command that
/// they say. The key of the entry with that number is added to the words. The server's own readers read the bytes back.
/// Fails with `Usage` only if the words with that key are no line of head office.
pub fn office_request(
    alloc: Global,
    routes: &Routes,
    token: &Token,
    mark: &TillMark,
    number: u32,
    words: &[String],
) -> Result<OfficeSealed, NotSaid>
    ensures says { IfOk result (λ sealed. SaysOffice sealed.bytes.items token.now
        (with_key (key_of mark.now number) (map string_bytes words.now)) (seen_office sealed.command)) }
    ensures key { IfOk result (λ sealed. sealed.command.key ≡ key_of mark.now number) }
    ensures fault { IfErr result (IsFaultOf (with_key (key_of mark.now number) (map string_bytes words.now))) }
{
    let key = key_text(alloc, mark, number)?;
    let words = keyed(alloc, words, key.as_str())?;
    let posted = words_posted(alloc, token, words.as_slice())?;
    let command = command_said(alloc, routes, token, &posted, key.as_str())?;
    Ok(OfficeSealed {
        bytes: posted.bytes,
        command,
    })
}

/// Builds the request of a reading of head office: its whole bytes, for a connection of its own. The server's own
/// readers read it back. Fails with `Usage` only if the words are no line of head office.
pub fn office_look_request(
    alloc: Global,
    routes: &Routes,
    token: &Token,
    words: &[String],
) -> Result<OfficeLookSealed, NotSaid>
    ensures says { IfOk result (λ sealed. SaysOfficeLook sealed.bytes.items token.now (map string_bytes words.now)
        (seen_office_ask sealed.ask)) }
    ensures fault { IfErr result (IsFaultOf (map string_bytes words.now)) }
{
    let posted = words_posted(alloc, token, words)?;
    let ask = look_said(alloc, routes, token, &posted)?;
    Ok(OfficeLookSealed {
        bytes: posted.bytes,
        ask,
    })
}
