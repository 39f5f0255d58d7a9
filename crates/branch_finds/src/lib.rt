//! Finds the rows that a command's decision reads, and answers a branch's reading or view inside one transaction.
#![tactic(auto)]

mod answering;
mod commands;
mod finds;
mod known;
mod looks;
mod readings;
mod work;

pub use answering::{answer_look, answer_view};
pub use commands::find_for_command;
pub use work::{Listing, Work};
