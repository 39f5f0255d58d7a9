//! A counter's connection: reads requests as bytes of HTTP/1.1 (RFC 9112), in a profile of our own, and writes the
//! replies of a chain.
#![tactic(auto)]

mod answer;
mod connection;
mod inbox;
mod laws;
mod machine;
mod reply;
mod unsent;

pub use connection::{End, ServeFault, Served, serve};
pub use http_messages::{
    MessageFault, MessageReading, Request as Message, read_request, write_whole,
};
pub use laws::{
    branches_are_sent_the_same, connections_are_one_history, connections_are_served_together,
    turns_serve_alike,
};
pub use machine::{Connection, Phase, Switchboard, TurnFault};
pub use reply::reply_bytes;
