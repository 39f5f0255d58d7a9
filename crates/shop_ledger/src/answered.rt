//! The outcome of a command.

use shop_types::Reply;

/// The reply to a command, and whether there is anything to commit.
#[derive(Drop)]
pub struct Answered {
    pub reply: Reply,
    /// No if the reply is a repeated one or a refusal.
    pub is_changed: bool,
}
