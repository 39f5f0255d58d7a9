//! A database in two files, whatever its tables are: opened, closed, and stopped by a crash.
#![tactic(auto)]

mod files;

pub use files::{close, connect, crashed, has_no_table};
