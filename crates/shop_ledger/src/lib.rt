//! Keeps account of what the shop has besides its rows: counts of rows, copies that are out, kept commands and last
//! moments. Each statement has one function. Each function works inside a transaction of the caller. Its contract says
//! what it found or changed in the books that the tables stand for.
#![tactic(auto)]

mod answered;
mod branches;
mod counts;
mod kept;

pub use answered::Answered;
pub use branches::{Standing, set_last, standing_at};
pub use counts::{
    Count, CountKind, copies_out, count_of, drop_out, out_at, put_count, put_counts, put_out,
    take_numbers,
};
pub use kept::{KeptRow, Owner, kept_at, kept_found, put_kept};
