//! Head office's words, which come as a JSON list of texts.

ghost use Rattle.std.specs.Prelude.{◌≡◌, true, IfOk, IfErr, OnErr, Some, None, map, option_map, string_bytes};
ghost use Rattle.serde_json.specs.View.{view};
ghost use Rattle.http_messages.specs.Shown.{message_of};
ghost use Rattle.shop_types.specs.Seen.{seen_request};
ghost use Rattle.shop_types.specs.Lines.{seen_line};
ghost use Rattle.counter_routes.specs.Words.{list_of_texts, texts_of, request_of_line, request_of_words, is_to_office as asks_office};
ghost use Rattle.counter_routes.specs.Readings.{Reads, office_or_usage, office_request};
ghost use Rattle.counter_routes.specs.declared.bodies.BodyFault.TheVariants.{BadBody};

use crate::asked::Reading;
use crate::bodies::{BodyFault, value_of};
use serde_json::Value;
use shop_types::{Line, LineAct, NoMemory, OfficeWords, Refusal, Request, Usage};
use std::alloc::Global;

/// Returns the texts that a value lists.
fn texts(alloc: Global, value: &Value) -> Result<Vec<String>, BodyFault>
    ensures ok { IfOk result (λ texts. list_of_texts (view value.now) ≡ Some (map string_bytes texts.items)) }
    ensures bad { IfErr result (λ fault. fault ≡ BadBody → list_of_texts (view value.now) ≡ None) }
{
    let items = value.as_array().ok_or(BodyFault::BadBody)?;
    let mut texts = Vec::with_capacity(alloc, items.len())?;
    for item in items {
        let text = item.as_str().ok_or(BodyFault::BadBody)?;
        texts.push_reserved(String::from_str(alloc, text)?);
    }
    Ok(texts)
}

/// Returns the texts that a body lists.
fn body_texts(alloc: Global, body: &[u8]) -> Result<Vec<String>, BodyFault>
    ensures ok { IfOk result (λ texts. texts_of body.now ≡ Some (map string_bytes texts.items)) }
    ensures bad { IfErr result (λ fault. fault ≡ BadBody → texts_of body.now ≡ None) }
{
    texts(alloc, &value_of(alloc, body)?)
}

/// Returns what a line asks of a chain: a command or a reading. A line that names a file, or that only the program can
/// do, asks nothing.
fn line_request(line: Line) -> Option<Request>
    ensures { option_map seen_request result ≡ request_of_line (seen_line line) }
{
    let Line { db, act } = line;
    if db.is_some() {
        drop(act);
        return None;
    }
    match act {
        LineAct::Office(command) => Some(Request::Office(command)),
        LineAct::OfficeLook(ask) => Some(Request::OfficeLook(ask)),
        _ => None,
    }
}

/// Returns what the words ask: the command or the reading that they mean, or `usage` if they mean neither.
fn read_words<O: OfficeWords>(words: &O, texts: &[String]) -> Result<Reading, NoMemory>
    ensures { IfOk result (λ reading. Reads reading
        (office_or_usage (request_of_words (O.meaning words.now) (map string_bytes texts.now)))) }
{
    match words.read(texts) {
        Ok(line) => match line_request(line) {
            Some(request) => Ok(Reading::Asked(request)),
            None => Ok(Reading::Refused(Refusal::Usage)),
        },
        Err(fault) => match fault {
            Usage::Words(_) => Ok(Reading::Refused(Refusal::Usage)),
            Usage::Memory => Err(NoMemory),
        },
    }
}

/// Returns whether the message is one that head office may send: POST to the one target.
fn is_to_office(message: &http_messages::Request<'_>) -> bool
    ensures { result ≡ asks_office (message_of message.now) }
{
    message.posts && message.target == b"/office".as_slice()
}

/// Returns what head office's message asks.
pub(crate) fn read_office<O: OfficeWords>(
    alloc: Global,
    words: &O,
    message: &http_messages::Request<'_>,
) -> Result<Reading, NoMemory>
    ensures reading { IfOk result (λ reading. Reads reading
        (office_request (O.meaning words.now) (message_of message.now))) }
    ensures memory { OnErr result (asks_office (message_of message.now) ≡ true) }
{
    if message.body.len() > 65_536 {
        return Ok(Reading::Refused(Refusal::TooLong));
    }
    if !is_to_office(message) {
        return Ok(Reading::Refused(Refusal::NoRoute));
    }
    match body_texts(alloc, message.body) {
        Ok(texts) => read_words(words, texts.as_slice()),
        Err(fault) => match fault {
            BodyFault::BadBody => Ok(Reading::Refused(Refusal::BadBody)),
            BodyFault::NoMemory => Err(NoMemory),
        },
    }
}
