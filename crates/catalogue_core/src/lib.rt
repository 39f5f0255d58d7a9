//! Decides on a command of head office by what was found of the shared rows that the command names. The command is
//! accepted, or the first refusal is returned.
#![tactic(auto)]

mod acts;
mod decision;
mod shared;

pub use decision::decide_office;
pub use shared::{BranchFound, Shared, SharedRows};
