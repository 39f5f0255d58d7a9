//! The program of head office, for one list of words.
#![tactic(auto)]

mod commands;
mod peers;
mod printing;
mod program;
mod replays;
mod rights;
mod serving;

pub use commands::serve_port;
pub use office_words::{ClapWords, read_words};
pub use program::run;
pub use serving::serve_listener;
