//! What keeps the till from doing a word.

ghost use Rattle.std.specs.Prelude.{◌≡◌, ◌<◌, ◌↔◌, IsTrue};
ghost use Rattle.till_cashier.specs.Faults.{HasNoReply, fault_status, fault_text, told_fault};

use std::alloc::{AllocError, AllocFailed};
use std::io;
use till_files::BookFault;
use till_requests::{NoSettings, NotBuilt};
use till_shows::NotShown;
use till_work::DeskFault;

/// Why the till didn't do a word, or can't say its outcome yet.
#[derive(Clone, Copy, Debug, PartialEq, Eq)]
pub enum TillFault {
    /// The book can't be read or written.
    Book,
    /// Another window has the book.
    Busy,
    /// There is no book of that name.
    NoBook,
    /// The file is no till's book.
    NotABook,
    /// There is a book of that name already.
    Already,
    /// The book has as many entries as it can.
    Full,
    /// There was no memory.
    Memory,
    /// A file, the clock or the terminal failed.
    System,
    /// There are no settings beside the book, or they aren't of their form.
    Settings,
    /// The settings can't keep the address.
    NotKept,
    /// The book is another till's, or its settings are another book's.
    OtherBook,
    /// The last entry's moment is so many seconds ahead of the clock.
    Ahead(u64),
    /// No reply came.
    Unanswered,
    /// The line to the server is down: the command waits in the book.
    Waits,
    /// The line to the server is down: nothing can be asked.
    Down,
    /// An earlier word of head office has no reply yet: this one isn't entered.
    EarlierWaits,
    /// The server had no memory, room or store.
    NotNow,
    /// The server doesn't know the till's token.
    NotKnown,
    /// Something was asked for that changes nothing, and no reply came, or the server had no memory or store for one.
    Silent,
    /// What came is no reply of the server's.
    Foreign,
    /// The till has no rental of that copy.
    NoRental,
    /// The server says that no customer has that copy.
    NotOut,
    /// A rent of that copy has no reply yet.
    RentWaits,
    /// The stock file can't be read.
    NoFile,
    /// The stock file is too large.
    TooLarge,
    /// The text can't be sent.
    NotSent,
    /// The closings or the drawers beside the book are spoilt, or another book's.
    Drawer,
    /// A closing can't be written beside the book.
    NotClosed,
    /// A branch's word at head office's book.
    IsOffice,
    /// Head office's word at a branch's book.
    IsBranch,
    /// The system has no zone of that name.
    NoZone,
    /// The last entry's moment is ahead of the clock of that zone.
    ZoneBehind,
    /// The word can't be undone, and nobody said yes to it.
    Unsure,
    /// The customer of that number has the name and the telephone number of the person who joins.
    Joined(u64),
    /// The book has no entry, or its last one is long ago, and nobody said today's date.
    Undated,
    /// The date that was said isn't the clock's. Each is the number of its day.
    OtherDay { clock: i32, said: i32 },
    /// What was said is no date.
    NoDate,
    /// The branch's sheet has no city of that name.
    NoCity,
    /// The branch's sheet has no member of staff of that name.
    NoStaff,
}

impl TillFault {
    /// Returns the program's status for it: 1 if a word can't be done as it was said, 4 if it isn't answered yet, and 3
    /// for the till's own faults.
    pub fn status(self) -> u8
        ensures fails { 0 < result }
        ensures status { result ≡ fault_status self }
    {
        match self {
            TillFault::NoRental
            | TillFault::NotOut
            | TillFault::RentWaits
            | TillFault::NoFile
            | TillFault::TooLarge
            | TillFault::NotSent
            | TillFault::IsOffice
            | TillFault::IsBranch
            | TillFault::EarlierWaits
            | TillFault::NoZone
            | TillFault::ZoneBehind
            | TillFault::Unsure
            | TillFault::Joined(_)
            | TillFault::Undated
            | TillFault::OtherDay { .. }
            | TillFault::NoDate
            | TillFault::NoCity
            | TillFault::NoStaff
            | TillFault::Already
            | TillFault::NotKept => 1,
            TillFault::Waits | TillFault::Down => 4,
            TillFault::Unanswered | TillFault::NotNow | TillFault::NotKnown | TillFault::Silent => {
                4
            }
            TillFault::Book
            | TillFault::Busy
            | TillFault::NoBook
            | TillFault::NotABook
            | TillFault::Full
            | TillFault::Memory
            | TillFault::System
            | TillFault::Settings
            | TillFault::Drawer
            | TillFault::NotClosed
            | TillFault::OtherBook
            | TillFault::Ahead(_)
            | TillFault::Foreign => 3,
        }
    }

    /// Tests whether the server gave no reply that counts, to the word or to an earlier one.
    pub fn is_unanswered(self) -> bool
        ensures { IsTrue result ↔ HasNoReply self }
    {
        matches!(
            self,
            TillFault::Unanswered | TillFault::NotNow | TillFault::Silent | TillFault::EarlierWaits
        )
    }

    /// Returns what it is, and what to do.
    pub(crate) fn sentences(self) -> &'static str
        ensures { result.now ≡ fault_text self }
    {
        match self {
            TillFault::Book =>
                "The book can't be read or written. See that its disk has room, and say the word again.",
            TillFault::Busy =>
                "Another window has this till's book. Wait for its word, and say this one again.",
            TillFault::NoBook =>
                "There is no book of that name. Make one: init ADDRESS TOKEN --staff N --zone NAME.",
            TillFault::NotABook => "That file is no till's book. Name another by --book.",
            TillFault::Already =>
                "There is a book of that name, or a file of one. Take it, or name another by --book.",
            TillFault::Full => "The book can take no more entries. Make a new one.",
            TillFault::Memory =>
                "There is no memory left. Close other programs, and say the word again.",
            TillFault::System => "A file, the clock or the terminal failed. Say the word again.",
            TillFault::Settings =>
                "The settings beside the book are missing or spoilt. Make a new book: init ADDRESS TOKEN --staff N --zone NAME.",
            TillFault::NotKept => "The settings can't keep that address. Write it as HOST:PORT.",
            TillFault::Drawer =>
                "What is kept of drawers beside the book is spoilt, or another book's. Move the book's files .drawer and .drawers away: its drawer counts from its first entry then.",
            TillFault::NotClosed =>
                "The closing can't be written beside the book. See that the disk has room, and close the drawer again.",
            TillFault::OtherBook =>
                "The book and its settings aren't of one till. Make a new book: init ADDRESS TOKEN --staff N --zone NAME.",
            TillFault::Ahead(_) => "The last entry is too far ahead of the clock.",
            TillFault::Unanswered =>
                "No answer came. What was said is in the book and goes again by itself, once.",
            TillFault::Waits =>
                "The line to the server is down. What was said is in the book and goes by itself, once.",
            TillFault::Down =>
                "The line to the server is down, so that can't be asked now. Say the word again later.",
            TillFault::EarlierWaits =>
                "An earlier word has no answer yet, so this one wasn't done. Say send, and then this word again.",
            TillFault::NotNow =>
                "The server can't take it now. What was said is in the book and goes again by itself, once.",
            TillFault::NotKnown =>
                "The server doesn't know this till. What was said is in the book and waits: have the till's token and the server's file looked at.",
            TillFault::Silent => "No answer came. Nothing was changed by it: say the word again.",
            TillFault::Foreign =>
                "What came is no answer of the server's. See that the address is the server's.",
            TillFault::NoRental =>
                "This till knows no rental of that copy. Say its number: return --rental NUMBER.",
            TillFault::NotOut =>
                "No customer has that copy, so nothing is returned. See its number.",
            TillFault::RentWaits =>
                "The rent of that copy has no answer yet. Say send, and then this word again.",
            TillFault::NoFile => "The stock file can't be read. See that its name is right.",
            TillFault::TooLarge =>
                "The stock file is too large. Part it, at most 500 lines to a lot.",
            TillFault::NotSent => "That can't be sent as it stands. Say it in other words.",
            TillFault::IsOffice => "This book is head office's. Say office and its words.",
            TillFault::IsBranch => "This book is a branch's. Head office has a book of its own.",
            TillFault::NoZone =>
                "There is no zone of that name here. Say one as America/Edmonton, UTC-07:00 or UTC.",
            TillFault::ZoneBehind =>
                "The last entry is ahead of that zone's clock, so the zone stays. Say the word again when that clock is past it: see last.",
            TillFault::Unsure =>
                "That can't be undone, and nothing was entered. If it is to be done, say --yes before the word.",
            TillFault::Joined(_) => "A customer has that name and phone, so nobody was added.",
            TillFault::Undated =>
                "There is no entry yet, or the last one is more than 36 hours ago. Look at a calendar, and say today's date first: today YYYY-MM-DD.",
            TillFault::OtherDay { .. } => "That isn't the date of the till's clock.",
            TillFault::NoDate => "That is no date. Say today's date as today YYYY-MM-DD.",
            TillFault::NoCity =>
                "The branch's sheet has no city of that name. Say the city's number.",
            TillFault::NoStaff =>
                "The branch's sheet has no member of staff of that name. Say the member's number.",
        }
    }
}

impl From<AllocError> for TillFault {
    fn from(_error: AllocError) -> TillFault {
        TillFault::Memory
    }
}

impl<T: Drop> From<AllocFailed<T>> for TillFault {
    fn from(_error: AllocFailed<T>) -> TillFault {
        TillFault::Memory
    }
}

impl From<io::Error> for TillFault {
    fn from(_error: io::Error) -> TillFault {
        TillFault::System
    }
}

impl From<DeskFault> for TillFault {
    ghost from_gives = { λ fault told. told ≡ told_fault fault };

    fn from(fault: DeskFault) -> TillFault {
        match fault {
            DeskFault::Book => TillFault::Book,
            DeskFault::Full => TillFault::Full,
            DeskFault::Memory => TillFault::Memory,
            DeskFault::NoCommand
            | DeskFault::OtherKey
            | DeskFault::NotLater
            | DeskFault::OtherBook
            | DeskFault::NoEntry => TillFault::OtherBook,
            DeskFault::Unopened | DeskFault::Unanswered(_) => TillFault::Unanswered,
            DeskFault::NotNow => TillFault::NotNow,
            DeskFault::NotKnown => TillFault::NotKnown,
        }
    }
}

impl From<BookFault> for TillFault {
    fn from(fault: BookFault) -> TillFault {
        match fault {
            BookFault::Memory => TillFault::Memory,
            BookFault::Size | BookFault::Store => TillFault::Book,
            BookFault::NotABook => TillFault::NotABook,
            BookFault::Already => TillFault::Already,
        }
    }
}

impl From<NotBuilt> for TillFault {
    fn from(fault: NotBuilt) -> TillFault {
        match fault {
            NotBuilt::Other => TillFault::NotSent,
            NotBuilt::Memory => TillFault::Memory,
        }
    }
}

impl From<NotShown> for TillFault {
    fn from(fault: NotShown) -> TillFault {
        match fault {
            NotShown::NoMemory => TillFault::Memory,
            NotShown::OtherForm => TillFault::Foreign,
        }
    }
}

impl From<NoSettings> for TillFault {
    fn from(fault: NoSettings) -> TillFault {
        match fault {
            NoSettings::Form => TillFault::Settings,
            NoSettings::Memory => TillFault::Memory,
        }
    }
}
