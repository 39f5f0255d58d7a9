//! Why something wasn't done.

use till_client::AskFault;

/// Why something wasn't done at a till. But for `Book`, the book is as it was, or goes on.
#[derive(Debug, Drop)]
pub enum DeskFault {
    /// The book failed, or there was no memory for what it has: it is to be opened anew, and may have what was under
    /// way.
    Book,
    /// The book has as many entries as it can.
    Full,
    /// There was no memory.
    Memory,
    /// The request says no command with the till's token.
    NoCommand,
    /// The command's key isn't the mark and the entry's number.
    OtherKey,
    /// The command's moment isn't after the last entry's.
    NotLater,
    /// The number isn't the next entry's, or the last entry is no command: this isn't the till's book.
    OtherBook,
    /// No entry has that number, or each entry has its reply.
    NoEntry,
    /// No connection was opened. The entry stays, and is to be sent again.
    Unopened,
    /// No reply came. The entry stays, and is to be sent again.
    Unanswered(AskFault),
    /// The server had no memory, room or store, and did nothing. The entry stays, and is to be sent again.
    NotNow,
    /// The server doesn't know the entry's token, as over another file, and did nothing. The entry stays, and is to be
    /// sent again.
    NotKnown,
}
