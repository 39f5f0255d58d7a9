//! Describes words in a table to the library `clap`, and reads their values.
#![tactic(auto)]

mod given;
mod options;

pub use given::{owned, str_of, unread};
pub use options::{OptionKind, number, optional, with_options};
