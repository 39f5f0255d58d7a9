//! The requests of an input: where each ends, and what it says.

ghost use Rattle.std.specs.Prelude.{◌≡◌, ℕ, List, ◌++◌, ◌≤◌, ◌<◌, length, All, ◌∷◌, [], Some, None, true, false, IsTrue, option_map, ◌↔◌};
ghost use Rattle.httparse.specs.Spans.{IsHeaderWithin, IsWithin};
ghost use Rattle.httparse.specs.Grammar.{RequestHead};
ghost use Rattle.http_messages.specs.Message.{Message};
ghost use Rattle.http_messages.specs.Input.{HasMessage, HasMessages, IsBadHead, IsTooLong, IsCut};
ghost use Rattle.http_messages.specs.Shown.{IsReading, IsParsed};

use crate::fields::{connection_closes, is_post_method, size_of_body, token_of};
use httparse::Status;
use httparse::spans::{EMPTY_HEADER_SPAN, HeaderSpan, RequestSpans, parse_request};

/// The most bytes of a request's head, the empty line at its end included: a limit of our own profile.
pub const HEAD_LIMIT: usize = 8192;

/// The most fields of a request's head: a limit of our own profile.
pub const FIELD_LIMIT: usize = 32;

/// The most bytes of a request's body: a limit of our own profile.
pub const BODY_LIMIT: u64 = 65536;

/// A whole request, as slices of the bytes that it was read from.
#[derive(Clone, Copy)]
pub struct Request<'b> {
    /// Whether the method is POST; it is GET otherwise.
    pub posts: bool,
    /// The request target as it stands in the head: UTF-8, and not decoded.
    pub target: &'b [u8],
    /// The value of the `counter-token` field, where there is exactly one.
    pub token: Option<&'b [u8]>,
    /// Whether the connection ends after the reply: in HTTP/1.0, or where a `connection` field has the
    /// item `close`.
    pub closes: bool,
    /// As many bytes as `content-length` says, and none where there is no such field.
    pub body: &'b [u8],
}

/// Why no more of an input is read.
#[derive(Clone, Copy, Debug)]
pub enum MessageFault {
    /// `bad_head`: no head of HTTP/1.x with at most 32 fields can begin so, or the method is neither
    /// GET nor POST. Or there is a `transfer-encoding` field, more than one `content-length`, or one
    /// that isn't 1 to 19 digits.
    BadHead,
    /// `too_long`: no head ends within 8,192 bytes, or the body has more than 65,536 bytes.
    TooLong,
}

/// The outcome of reading the bytes so far.
#[derive(Clone, Copy)]
pub enum MessageReading<'b> {
    /// A whole request, and the count of its bytes. The next request begins after them.
    Whole(Request<'b>, usize),
    /// The start of a request, or no byte at all.
    More,
    /// No bytes that follow can complete these bytes to a request.
    Refused(MessageFault),
}

/// Reads what follows a head.
fn read_body<'b>(
    input: &'b [u8],
    window: &'b [u8],
    head: RequestSpans,
    headers: &[HeaderSpan],
) -> MessageReading<'b>
    requires method { IsWithin (length window.now) head.method }
    requires path { IsWithin (length window.now) head.path }
    requires headers { All (IsHeaderWithin (length window.now)) headers.now }
    requires parsed { (h : RequestHead) × IsParsed input.now window.now head headers.now h }
    ensures { IsReading input.now result }
{
    let method = head.method.of(window);
    let Some(size) = size_of_body(window, method, headers) else {
        return MessageReading::Refused(MessageFault::BadHead);
    };
    if size > BODY_LIMIT {
        return MessageReading::Refused(MessageFault::TooLong);
    }
    let size = size as usize;
    let rest = &input[head.len..];
    if rest.len() < size {
        return MessageReading::More;
    }
    let request = Request {
        posts: is_post_method(method),
        target: head.path.of(window),
        token: token_of(window, headers),
        closes: head.version == 0 || connection_closes(window, headers),
        body: &rest[..size],
    };
    MessageReading::Whole(request, head.len + size)
}

/// Finds out what the bytes of a connection after the last request are so far: a whole request at their front, the
/// start of one, or a fault.
///
/// A head is one of RFC 9112 as `httparse` reads it in its default configuration, within the limits
/// of our own profile. It is left open whether bytes that end inside a target that isn't UTF-8, or
/// inside or after a 33rd field, are a fault already.
pub fn read_request(input: &[u8]) -> MessageReading<'_>
    ensures { IsReading input.now result }
{
    let mut headers = [EMPTY_HEADER_SPAN; FIELD_LIMIT];
    let window = &input[..input.len().min(HEAD_LIMIT)];
    match parse_request(window, &mut headers) {
        Ok(Status::Complete(head)) => read_body(input, window, head, &headers[..head.headers]),
        Ok(Status::Partial) if input.len() < HEAD_LIMIT => MessageReading::More,
        Ok(Status::Partial) => MessageReading::Refused(MessageFault::TooLong),
        Err(_) => MessageReading::Refused(MessageFault::BadHead),
    }
}

/// However the reads of a connection are cut, its bytes give the same requests. This is a law of the
/// definitions: the function itself does nothing.
///
/// An input begins with one message at most, and where it begins with one it is neither refused nor
/// cut. Of two splits of an input into messages the longer goes on from the shorter. What was found
/// once, a fault or messages, stands however the input goes on.
pub fn one_reading()
    ensures message { (input rest others : List ℕ) (m n : Message)
        → HasMessage input m rest → HasMessage input n others → (m ≡ n) × (rest ≡ others) }
    ensures bad { (input rest : List ℕ) (m : Message)
        → HasMessage input m rest → ¬ (IsBadHead input) }
    ensures long { (input rest : List ℕ) (m : Message)
        → HasMessage input m rest → ¬ (IsTooLong input) }
    ensures cut { (input rest : List ℕ) (m : Message)
        → HasMessage input m rest → ¬ (IsCut input) }
    ensures split { (input rest more : List ℕ) (ms ns : List Message)
        → HasMessages input ms rest → HasMessages input ns more → length ms ≤ length ns
        → (later : List Message) × (ns ≡ ms ++ later) × HasMessages rest later more }
    ensures more_bad { (input more : List ℕ) → IsBadHead input → IsBadHead (input ++ more) }
    ensures more_long { (input more : List ℕ) → IsTooLong input → IsTooLong (input ++ more) }
    ensures more_split { (input more rest : List ℕ) (ms : List Message)
        → HasMessages input ms rest → HasMessages (input ++ more) ms (rest ++ more) }
{}
