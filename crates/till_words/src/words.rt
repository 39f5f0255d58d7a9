ghost use Rattle.std.specs.Prelude.{◌≡◌, map, string_bytes};

use shop_types::{
    Act, CopyNo, CustomerNo, FilmNo, L45, LotName, RowNumber, StaffNo, T45, T128, Text, Token,
};
use std::marker::Model;

/// The name of a file: 1 to 1,000 bytes of UTF-8 with no control byte.
pub type FileName = Text<1, 1000>;

/// The number of a drawer, from 1 on. No table has that kind of number.
pub type DrawerNo = RowNumber<100>;

/// The name of a zone, as it was typed: 1 to 60 bytes of UTF-8 with no control byte.
pub type ZoneText = Text<1, 60>;

/// Words as they were typed.
#[derive(Drop)]
pub struct WordList {
    words: Vec<String>,
}

impl Model for WordList {
    ghost use Rattle.std.specs.Prelude.{ℕ, List, map, string_bytes};

    ghost Value = { List (List ℕ) };

    ghost view = { λ a. map string_bytes a.words.items };
}

impl WordList {
    pub(crate) fn new(words: Vec<String>) -> WordList
        ensures { result ≡ map string_bytes words.items }
    {
        WordList { words }
    }

    pub fn as_slice(&self) -> &[String]
        ensures { map string_bytes result.now ≡ self.now }
    {
        self.words.as_slice()
    }
}

/// What the till needs to make a new book.
#[derive(Drop)]
pub struct Beginning {
    /// The server's address.
    pub address: T128,
    /// The token by which the server knows the book's owner.
    pub token: Token,
    /// The member of staff at the till, or none for a book of head office.
    pub staff: Option<StaffNo>,
    /// The zone of the book. A book of head office may have none.
    pub zone: Option<ZoneText>,
}

/// What is looked up.
#[derive(Drop)]
pub enum TillLook {
    Customer(CustomerNo),
    /// The customers who have this in their name or phone number.
    Customers(T128),
    Film(FilmNo),
    /// The films that have this in their title.
    Films(T128),
    /// Whether no rental of the copy is open.
    InStock(CopyNo),
    /// Which customer has the copy.
    HeldBy(CopyNo),
    /// The film's copies that are in stock, and its copies that are out.
    Copies(FilmNo),
    /// What the customer owes now.
    Balance(CustomerNo),
    Overdue,
    /// The consignments that were sent to the branch.
    Arrivals,
    /// The consignments that the branch sent.
    Sent,
    /// The customers who paid more often than `purchases`, and more than `cents`, in the month before.
    Rewards { purchases: u32, cents: u32 },
    /// What customers paid the branch for rentals, as a whole and by category.
    Sales,
}

/// Who a customer is, with the city's name in the place of its number.
#[derive(Drop)]
pub struct PersonIn {
    pub first: T45,
    pub last: T45,
    pub address: T128,
    /// The postal code, which may be empty.
    pub postal: L45,
    /// The telephone number, which may be empty.
    pub phone: L45,
    pub city: T128,
}

/// A date as it is typed, in 10 bytes: `2026-03-09`.
pub type DayText = Text<10, 10>;

/// What is asked of the drawer.
#[derive(Drop)]
pub enum Drawer {
    /// What came since it was closed last.
    Since,
    /// To close it, with so many cents counted.
    Close(u32),
    /// How it was closed on that day.
    Closings(DayText),
}

/// What a line of words asks a till for.
#[derive(Drop)]
pub enum TillAct {
    /// To make a new book.
    Init(Beginning),
    /// To enter a command of a branch.
    Do(Act),
    /// To add a customer whose city is named. The branch's sheet has its number.
    JoinIn(PersonIn),
    /// To take a copy back, for whichever rental of the copy the till knows.
    ReturnCopy(CopyNo),
    /// To enter an import of this stock file, under this lot's name.
    Import { file: FileName, lot: LotName },
    Look(TillLook),
    /// To show the commands that are entered and not yet answered.
    Waiting,
    /// To send the commands that wait.
    Send,
    /// To show so many of the book's last entries.
    Last(u32),
    /// To show what is in the drawer, or to close it.
    Day(Drawer),
    /// To say that this is today's date.
    Today(DayText),
    /// To enter once more what was refused since another moment was later. Rents and returns of another day only if
    /// `late`.
    Again { late: bool },
    /// To show the last slip once more.
    Slip,
    Help,
    /// To set the book's zone.
    Zone(ZoneText),
    /// To do what these words of head office ask for.
    Office(WordList),
    /// To read lines of words, one after another.
    Prompt,
}

/// A line of words, as it was read.
#[derive(Drop)]
pub struct TillLine {
    /// The name of the book's file, if one is given.
    pub book: Option<FileName>,
    /// Whether the answer is to be JSON.
    pub is_json: bool,
    /// Whether what can't be undone is to be done without a question.
    pub is_sure: bool,
    /// The member of staff at the till, if another than the one that the book was made for.
    pub staff: Option<StaffNo>,
    /// The drawer at which the line is said, if one is named.
    pub drawer: Option<DrawerNo>,
    pub act: TillAct,
}
