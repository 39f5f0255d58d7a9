//! The till's end of a connection, over any reader and writer: the bytes of requests, what a request says to the
//! server, and replies.
#![tactic(auto)]

mod exchange;
pub mod laws;
mod rentals;
mod replies;
mod requests;
mod sealed;

pub use exchange::{AskFault, ask, read_answer};
pub use rentals::rental_in_reply;
pub use replies::{Answer, ReplyReading, ReplySlices, read_reply};
pub use requests::post_bytes;
pub use sealed::{NotSealed, Sealed, command_of, seal};
