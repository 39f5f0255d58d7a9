//! The head of a reply.

ghost use Rattle.std.specs.Prelude.{◌≡◌, ◌≤◌, ◌<◌, ◌++◌, length};
ghost use Rattle.http_messages.specs.Text.{phrase, head_text};

use arrayvec::ArrayString;
use http::StatusCode;

/// The room for a reply's head, which has at most 120 bytes.
pub const REPLY_HEAD_ROOM: usize = 128;

#[tactic(auto, using(crate::proofs::PhraseLemmas::phrase_outside))]
fn phrase_of(status: u16) -> &'static str
    ensures value { result.now ≡ phrase status }
    ensures short { length result.now ≤ 31 }
{
    match StatusCode::from_u16(status) {
        Ok(code) => code.canonical_reason().unwrap_or(""),
        Err(_) => "",
    }
}

/// Returns the head of a reply whose JSON body has `body_len` bytes, with the empty line at its end (RFC 9112, sections
/// 2.1 and 4).
///
/// By our own profile `content-type` and `content-length` are its only fields. The phrase is the
/// canonical one by the table of the crate `http` (after RFC 9110, section 15), or empty.
#[tactic(auto, unfolding(crate::specs::Text::head_text))]
pub fn reply_head(status: u16, body_len: usize) -> ArrayString<REPLY_HEAD_ROOM>
    ensures { result.bytes ≡ head_text status body_len }
{
    let mut digits = itoa::Buffer::new();
    let mut head = ArrayString::new();
    head.push_str("HTTP/1.1 ");
    head.push_str(digits.format(status));
    head.push_str(" ");
    head.push_str(phrase_of(status));
    head.push_str("\r\ncontent-type: application/json\r\ncontent-length: ");
    head.push_str(digits.format(body_len));
    head.push_str("\r\n\r\n");
    head
}
