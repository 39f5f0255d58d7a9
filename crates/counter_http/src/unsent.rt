//! What is left to write of a reply.
ghost use Rattle.std.specs.Prelude.{◌≡◌, ℕ, ◌<◌, true, false, List, [], ◌++◌, length, IfOk, OnErr};
ghost use Rattle.std.specs.Io.KnownBytes.{Appends};
ghost use Rattle.shop_types.specs.Replies.{seen_reply};
ghost use Rattle.counter_http.specs.Exchanges.{text_of};
ghost use Rattle.counter_http.specs.Unsent.{unsent_of};

use http_messages::{reply_head, write_part};
use shop_types::Reply;
use std::io::{self, Write};
use std::marker::Model;

/// The reply that is written now, if there is one, and how much of its head and of its body is written. It takes no
/// memory of its own.
#[derive(Drop)]
pub struct Unsent {
    reply: Option<Reply>,
    head_at: usize,
    body_at: usize,
}

impl Model for Unsent {
    ghost Value = { List ℕ };

    ghost view = { λ u. unsent_of u.reply u.head_at u.body_at };
}

impl Unsent {
    /// Holds no reply: nothing is left to write.
    pub fn new() -> Unsent
        ensures { result ≡ [] }
    {
        Unsent {
            reply: None,
            head_at: 0,
            body_at: 0,
        }
    }

    /// Makes this reply the one to write, in the place of the one before.
    pub fn put(&mut self, reply: Reply)
        ensures { self.new ≡ text_of (seen_reply reply) }
    {
        self.reply = Some(reply);
        self.head_at = 0;
        self.body_at = 0;
    }

    /// Writes as far as the writer takes it, and drops a reply that is wholly written. Reports whether nothing is left.
    /// If something is, the writer would wait. At an error something is left too.
    pub fn flush<W: Write>(&mut self, writer: &mut W) -> io::Result<bool>
        ensures sent { (sent : List ℕ) × Appends (W.contents writer.old) (W.contents writer.new) sent
            × (self.old ≡ sent ++ self.new) }
        ensures all { IfOk result (λ all. all ≡ true → self.new ≡ []) }
        ensures part { IfOk result (λ all. all ≡ false → 0 < length self.new) }
        ensures err { OnErr result (0 < length self.new) }
    {
        let all = self.write_on(writer)?;
        if all {
            self.reply = None;
        }
        Ok(all)
    }

    /// Does the same as `flush`, but keeps the reply.
    fn write_on<W: Write>(&mut self, writer: &mut W) -> io::Result<bool>
        ensures sent { (sent : List ℕ) × Appends (W.contents writer.old) (W.contents writer.new) sent
            × (self.old ≡ sent ++ self.new) }
        ensures all { IfOk result (λ all. all ≡ true → self.new ≡ []) }
        ensures part { IfOk result (λ all. all ≡ false → 0 < length self.new) }
        ensures err { OnErr result (0 < length self.new) }
    {
        let Some(reply) = &self.reply else {
            return Ok(true);
        };
        let body = reply.body_bytes();
        let head = reply_head(reply.status, body.len());
        if write_part(writer, head.as_str().as_bytes(), &mut self.head_at)? {
            write_part(writer, body, &mut self.body_at)
        } else {
            Ok(false)
        }
    }
}
