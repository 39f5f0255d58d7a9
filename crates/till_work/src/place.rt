//! How far a book goes.

/// How many entries a till's book has, and how many replies.
#[derive(Clone, Copy, Debug, PartialEq, Eq)]
pub struct Place {
    pub entries: u32,
    pub replies: u32,
}
