//! Rows of SQL tables as values, for any schema: what tables stand for, how a table is made, and how rows are read,
//! all at once or one at a time.
#![tactic(auto)]

mod call;
mod each;
mod fault;
mod make;
mod stored;
mod text;

pub use call::{execute, query};
pub use each::{TakesRows, each_row};
pub use fault::{StoreFault, fault_of};
pub use make::make_tables;
pub use stored::{
    Stored, bytes_at, flag_at, number_at, number_or_null_at, query_all, query_one, words_at,
    words_or_null_at,
};
pub use text::{Bytes, Words, value_or_null};
