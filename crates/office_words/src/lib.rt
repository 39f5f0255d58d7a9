//! Head office's words, as the library `clap` reads them.
#![tactic(auto)]

mod acts;
mod clap_words;
mod commands;
mod given;
mod options;

pub use clap_words::{ClapWords, read_words};
pub use commands::is_reading;
