//! Writes requests as bytes.

ghost use Rattle.std.specs.Prelude.{◌≡◌, ◌++◌, IfOk};
ghost use Rattle.till_client.specs.Requests.{post_text};

use std::alloc::{AllocError, Global};

fn push(bytes: &mut Vec<u8>, text: &[u8]) -> Result<(), AllocError>
    ensures { IfOk result (λ _. bytes.new.items ≡ bytes.old.items ++ text.now) }
{
    bytes.extend_from_slice(text)
}

/// Returns the bytes of a command's request, for a connection of its own, which ends after the reply.
pub fn post_bytes(
    alloc: Global,
    token: &[u8],
    target: &[u8],
    body: &[u8],
) -> Result<Vec<u8>, AllocError>
    ensures { IfOk result (λ bytes. bytes.items ≡ post_text token.now target.now body.now) }
{
    let mut digits = itoa::Buffer::new();
    let mut bytes = Vec::from_slice(alloc, b"POST ")?;
    push(&mut bytes, target)?;
    push(&mut bytes, b" HTTP/1.1\r\nhost: till\r\ncounter-token: ")?;
    push(&mut bytes, token)?;
    push(&mut bytes, b"\r\nconnection: close\r\ncontent-length: ")?;
    push(&mut bytes, digits.format(body.len()).as_bytes())?;
    push(&mut bytes, b"\r\n\r\n")?;
    push(&mut bytes, body)?;
    Ok(bytes)
}
