//! Checks rows of books: their order, their custody, and the soundness of the books that have the rows.
#![tactic(auto)]

pub mod books;
mod branches;
mod catalogue;
mod consignments;
mod custody_counts;
mod groups;
mod held;
mod join;
mod laws;
mod links;
mod order;
mod part;
mod places;
mod rows;
mod shop;
mod sound;

pub use books::{NumberedRows, OrderedBooks, are_ordered};
pub use custody_counts::{copies_made, copies_under, lines_under};
pub use groups::{Grouped, Owned, have_owners, is_among, split_branch, split_group};
pub use join::are_joined;
pub use laws::{custody_is_of_rows, join_is_exact, sound_books_stay_sound};
pub use order::{Keyed, Numbered, are_counted, are_distinct, climbs, counts, same_bag, sort_rows};
pub use places::are_in_custody;
pub use rows::{
    CheckedBranch, CheckedCast, CheckedCity, CheckedFilm, CheckedHeader, CheckedKept, CheckedLine,
    CheckedLot, CheckedRow, CheckedStaff,
};
pub use sound::is_sound;
