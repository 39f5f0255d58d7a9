//! Reads and writes consignments: their numbers, their places in the order of dispatch, their headers and their lines.
//! Each statement has one function. Other functions add a whole consignment at a dispatch, set one at a receipt, and
//! find where the copies of a mark are. Each function works inside a transaction of the caller. Its contract says what
//! it found or changed in the books that the tables stand for. The lists of consignments are read row by row, outside
//! any transaction.
#![tactic(auto)]

mod headers;
mod keys;
mod lines;
mod lists;
mod marks;
mod pairs;
mod parcels;
mod places;

pub use headers::{HeaderRow, header_at, last_place, put_header, set_received};
pub use keys::ConsignmentKey;
pub use lines::{LineRow, lines_of, put_line, set_line};
pub use lists::{arrivals, sent, transit};
pub use marks::{copies_marked, lines_marked};
pub use pairs::take_pair;
pub use parcels::{mark_received, put_consignment};
pub use places::place_of;
