//! One row of the book, as it was read.

use sql_rows::Bytes;

/// A request, as it was entered.
#[derive(Drop)]
pub struct BookEntry {
    pub request: Bytes,
}

/// A reply, as it was recorded.
#[derive(Drop)]
pub struct BookReply {
    pub status: u16,
    pub body: Bytes,
}

/// The reply that settled an entry, with the entry's number.
#[derive(Drop)]
pub struct Settlement {
    pub number: u32,
    pub reply: BookReply,
}
