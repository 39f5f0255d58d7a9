//! The till's book: a journal of entries, replies and settlements, in three tables that only grow. Three tables beside
//! the journal list its accepted rents, its accepted returns and its unsure entries. They change in the same
//! transactions, so a look reads by key and never the whole book.
#![tactic(auto)]

mod changes;
mod drawer;
mod ends;
mod journal;
mod laws;
mod lists;
mod marks;
mod reading;
mod rents;
mod rows;
mod steps;
mod sums;

pub use drawer::{Came, Counted, DrawerRows, drawer_since};
pub use ends::{BookEnd, EntryNumber};
pub use journal::{drop_unsure, make_journal};
pub use laws::a_drawer_is_the_difference;
pub use lists::{BookRows, Entries, Replies, Settlements};
pub use marks::{EntryMark, put_mark, reply_mark, settled_mark};
pub use reading::all_rows;
pub use rents::HeldRental;
pub use rows::{BookEntry, BookReply, Settlement};
pub use steps::{
    enter, held_of, last_accepted, note_settled, oldest, read_after, read_book, read_end, record,
    renter_of, request_of, settlement_of, unsure_of,
};
pub use sums::{StaffSum, Tally, tally_of};
