//! Reads a reply from the bytes so far.

ghost use Rattle.std.specs.Prelude.{◌≡◌, length, All};
ghost use Rattle.httparse.specs.Spans.{IsHeaderWithin};
ghost use Rattle.till_client.specs.Replies.{IsReplyReading};

use http_messages::reply_head;
use httparse::Status;
use httparse::spans::{EMPTY_HEADER_SPAN, HeaderSpan, parse_response};

/// How many bytes of a reply are looked at for its head, at most.
const HEAD_LIMIT: usize = 1024;

/// How many fields of a reply's head are read, at most. The server sends `content-type` and `content-length`.
const FIELD_LIMIT: usize = 8;

/// A reply as it was read.
#[derive(Drop)]
pub struct Answer {
    pub status: u16,
    pub body: Vec<u8>,
}

/// A whole reply, as slices of the bytes that it was read from.
#[derive(Clone, Copy)]
pub struct ReplySlices<'b> {
    pub status: u16,
    pub body: &'b [u8],
}

/// Whether the bytes so far are a reply.
#[derive(Clone, Copy)]
pub enum ReplyReading<'b> {
    /// A whole reply of the server, with nothing after it.
    Whole(ReplySlices<'b>),
    /// The start of a reply, or no byte at all.
    More,
    /// Not a reply as the server writes replies.
    Foreign,
}

/// Returns the number that the digits write.
fn number_of(digits: &[u8]) -> Option<usize> {
    if digits.is_empty() || digits.len() > 9 {
        return None;
    }
    let text = std::str::from_utf8(digits).ok()?;
    text.parse::<usize>().ok()
}

/// Returns the length of the body from the head's fields.
fn length_in(window: &[u8], headers: &[HeaderSpan]) -> Option<usize>
    requires { All (IsHeaderWithin (length window.now)) headers.now }
{
    for header in headers {
        if header
            .name
            .of(window)
            .eq_ignore_ascii_case(b"content-length")
        {
            return number_of(header.value.of(window));
        }
    }
    None
}

/// Reads the reply whose head says this status and this length. The head has to be, byte for byte, the head that the
/// server writes.
#[tactic(auto, unfolding(http_messages::specs::Text::head_text))]
fn reply_with<'b>(bytes: &'b [u8], status: u16, len: usize) -> ReplyReading<'b>
    ensures { IsReplyReading bytes.now result }
{
    let head = reply_head(status, len);
    let Some(body) = bytes.strip_prefix(head.as_str().as_bytes()) else {
        return ReplyReading::Foreign;
    };
    if body.len() < len {
        return ReplyReading::More;
    }
    if body.len() > len {
        return ReplyReading::Foreign;
    }
    ReplyReading::Whole(ReplySlices { status, body })
}

/// Reads the bytes of a connection so far. The contract covers only `Whole`: it doesn't say which other bytes are the
/// start of a reply, and which are no reply.
pub fn read_reply(bytes: &[u8]) -> ReplyReading<'_>
    ensures { IsReplyReading bytes.now result }
{
    let mut headers = [EMPTY_HEADER_SPAN; FIELD_LIMIT];
    let window = &bytes[..bytes.len().min(HEAD_LIMIT)];
    match parse_response(window, &mut headers) {
        Ok(Status::Complete(head)) => {
            match length_in(window, &headers[..head.headers]) {
                Some(len) => reply_with(bytes, head.code, len),
                None => ReplyReading::Foreign,
            }
        }
        Ok(Status::Partial) if bytes.len() < HEAD_LIMIT => ReplyReading::More,
        _ => ReplyReading::Foreign,
    }
}
