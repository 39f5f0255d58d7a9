//! The bytes of a reply.
ghost use Rattle.std.specs.Prelude.{◌≡◌, IfOk};
ghost use Rattle.shop_types.specs.Replies.{seen_reply};
ghost use Rattle.counter_http.specs.Exchanges.{text_of};

use http_messages::reply_head;
use shop_types::{NoMemory, Reply};
use std::alloc::Global;

/// Returns the bytes that are sent for a reply: its head, with the body's length, and its body.
pub fn reply_bytes(alloc: Global, reply: &Reply) -> Result<Vec<u8>, NoMemory>
    ensures { IfOk result (λ bytes. bytes.items ≡ text_of (seen_reply reply.now)) }
{
    let body = reply.body_bytes();
    let head = reply_head(reply.status, body.len());
    let mut bytes = Vec::from_slice(alloc, head.as_str().as_bytes())?;
    bytes.extend_from_slice(body)?;
    Ok(bytes)
}
