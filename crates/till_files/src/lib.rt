//! The till's book in two files: made, opened, closed, migrated, and found again after a stop.
#![tactic(auto)]

mod creation;
mod faults;
mod files;
mod migrating;
mod old_books;
mod opening;
mod stopping;

pub use creation::create_book;
pub use faults::BookFault;
pub use files::close_book;
pub use old_books::migrate_book;
pub use opening::open_book;
pub use stopping::{enter_over_a_stop, note_settled_over_a_stop, record_over_a_stop, restart_book};
