//! The book's rows, whole and in order.

ghost use Rattle.std.specs.Prelude.{◌≡◌, map};
ghost use Rattle.till_book.specs.Seen.{seen_reply, seen_settlement};

use crate::rows::{BookEntry, BookReply, Settlement};
use std::marker::Model;

/// Requests in the order in which they were entered.
#[derive(Drop)]
pub struct Entries {
    rows: Vec<BookEntry>,
}

impl Model for Entries {
    ghost use Rattle.std.specs.Prelude.{ℕ, List, map};
    ghost use Rattle.till_book.specs.declared.rows.BookEntry.{BookEntry};

    ghost Value = { List (List ℕ) };

    ghost view = { λ it. map (λ (row : BookEntry). row.request) it.rows.items };
}

impl Entries {
    pub(crate) fn new(rows: Vec<BookEntry>) -> Entries
        ensures { result ≡ map (λ row. row.request) rows.items }
    {
        Entries { rows }
    }

    pub fn as_slice(&self) -> &[BookEntry]
        ensures { map (λ row. row.request) result.now ≡ self.now }
    {
        self.rows.as_slice()
    }
}

/// Replies in the order of the entries: the n-th reply is to the n-th entry.
#[derive(Drop)]
pub struct Replies {
    rows: Vec<BookReply>,
}

impl Model for Replies {
    ghost use Rattle.std.specs.Prelude.{List, map};
    ghost use Rattle.shop_model.specs.Answers.{Answer};
    ghost use Rattle.till_book.specs.Seen.{seen_reply};

    ghost Value = { List Answer };

    ghost view = { λ it. map seen_reply it.rows.items };
}

impl Replies {
    pub(crate) fn new(rows: Vec<BookReply>) -> Replies
        ensures { result ≡ map seen_reply rows.items }
    {
        Replies { rows }
    }

    pub fn as_slice(&self) -> &[BookReply]
        ensures { map seen_reply result.now ≡ self.now }
    {
        self.rows.as_slice()
    }
}

/// The replies that settled entries, in the order of the entries.
#[derive(Drop)]
pub struct Settlements {
    rows: Vec<Settlement>,
}

impl Model for Settlements {
    ghost use Rattle.std.specs.Prelude.{ℕ, List, map};
    ghost use Rattle.shop_model.specs.Answers.{Answer};
    ghost use Rattle.till_book.specs.Seen.{seen_settlement};

    ghost Value = { List (ℕ × Answer) };

    ghost view = { λ it. map seen_settlement it.rows.items };
}

impl Settlements {
    pub(crate) fn new(rows: Vec<Settlement>) -> Settlements
        ensures { result ≡ map seen_settlement rows.items }
    {
        Settlements { rows }
    }

    pub fn as_slice(&self) -> &[Settlement]
        ensures { map seen_settlement result.now ≡ self.now }
    {
        self.rows.as_slice()
    }
}

/// The whole book.
#[derive(Drop)]
pub struct BookRows {
    pub entries: Entries,
    pub replies: Replies,
    pub settled: Settlements,
}
