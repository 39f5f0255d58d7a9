//! The chain of shops over a store. It answers requests from its books, one after another, each in one transaction. A
//! chain in two files may be stopped and opened again, and its requests remain one history.
#![tactic(auto)]

mod chain;
mod creating;
mod files;
mod laws;
mod migrating;
mod paths;
mod restarting;
mod stopping;

pub use chain::Chain;
pub use chain_files::OpenFault;
pub use laws::{runs_follow, stays_well_in_memory};
pub use paths::NotAtPath;
pub use restarting::restart;
pub use stopping::{NotResumed, Resumed, over_a_stop};
