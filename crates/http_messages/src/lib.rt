//! The messages that a counter and its clients exchange: HTTP/1.1 requests (RFC 9112), read from the
//! bytes so far, and the heads of replies, both in a profile of our own; and writing of bytes, whole
//! or as far as a writer takes them.
//!
//! Nothing here allocates: a request holds slices of the bytes that it was read from, and a reply's
//! head fits an array.
#![tactic(auto)]

mod fields;
mod lists;
mod messages;
mod replies;
mod writes;

pub use lists::part;
pub use messages::{
    BODY_LIMIT, FIELD_LIMIT, HEAD_LIMIT, MessageFault, MessageReading, Request, one_reading,
    read_request,
};
pub use replies::{REPLY_HEAD_ROOM, reply_head};
pub use writes::{write_part, write_whole};
