//! What a desk replies to a window.

ghost use Rattle.std.specs.Prelude.{◌≡◌, ◌≤◌, length, IfOk, Ok};
ghost use Rattle.till_program.specs.Frames as spec;
ghost use Rattle.till_program.specs.Reading.{Is, reply_at};

use crate::fault::{NoFrame, NoLine};
use crate::fields::{field_of, put_field};
use std::alloc::Global;

/// How many bytes each text of a reply has at most.
const MOST_SAID: u32 = 67_108_864;

/// A reply: the word's status, what it printed, and what it printed of faults.
#[derive(Clone, Copy)]
pub struct Reply<'a> {
    pub status: u8,
    pub out: &'a [u8],
    pub err: &'a [u8],
}

/// Returns the bytes of a reply. Fails with `Form` if a text is too long.
pub fn reply_text(alloc: Global, status: u8, out: &[u8], err: &[u8]) -> Result<Vec<u8>, NoLine>
    ensures written { IfOk result (λ v. v.items ≡ spec.reply status out.now err.now) }
    ensures out { IfOk result (λ _. length out.now ≤ 67_108_864) }
    ensures err { IfOk result (λ _. length err.now ≤ 67_108_864) }
{
    if out.len() > MOST_SAID as usize || err.len() > MOST_SAID as usize {
        return Err(NoLine::Form(NoFrame::Long));
    }
    let mut text = Vec::new(alloc);
    text.push(status)?;
    put_field(&mut text, out)?;
    put_field(&mut text, err)?;
    Ok(text)
}

/// Reads a reply, all of the bytes.
#[tactic(auto, unfolding(crate::specs::Reading::reply_at))]
pub fn read_reply(bytes: &[u8]) -> Result<Reply<'_>, NoFrame>
    ensures read { Is (λ r. (r.status, (r.out.now, r.err.now))) result (reply_at bytes.now) }
    ensures found { IfOk result (λ r. bytes.now ≡ spec.reply r.status r.out.now r.err.now) }
{
    match bytes {
        [] => Err(NoFrame::Short),
        [status, rest @ ..] => {
            let (out, rest) = field_of(rest, MOST_SAID)?;
            let (err, rest) = field_of(rest, MOST_SAID)?;
            if !rest.is_empty() {
                return Err(NoFrame::Trailing);
            }
            Ok(Reply {
                status: *status,
                out,
                err,
            })
        }
    }
}
