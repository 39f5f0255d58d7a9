//! Finds and writes the rows that all branches share, for commands of head office.
#![tactic(auto)]

mod adding;
mod finding;
mod rows;

pub use adding::add;
pub use finding::{SharedFound, find};
