//! Reads bytes that are one message for a connection of its own.

ghost use Rattle.std.specs.Prelude.{IfSome};
ghost use Rattle.http_messages.specs.Shown.{message_of};
ghost use Rattle.till_client.specs.Sealing.{IsSole};

use http_messages::{MessageReading, Request, read_request};

/// Returns the message if the bytes are exactly one whole message, it has that token, and the connection ends after the
/// reply.
pub(crate) fn sole_message<'b>(token: &[u8], bytes: &'b [u8]) -> Option<Request<'b>>
    ensures { IfSome result (λ it. IsSole bytes.now token.now (message_of it)) }
{
    let MessageReading::Whole(message, len) = read_request(bytes) else {
        return None;
    };
    let Some(digits) = message.token else {
        return None;
    };
    if len != bytes.len() || digits != token || !message.closes {
        return None;
    }
    Some(message)
}
