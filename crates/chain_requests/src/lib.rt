//! Requests of a chain of shops, each in one transaction from its beginning to its commit: finds the caller who has a
//! token, does what a branch or head office asks, reads lists, and audits the tables.
#![tactic(auto)]

mod answering;
mod asked;
mod auditing;
mod callers;
mod office_commands;
mod office_reading;
mod opened;
mod reports;
mod steps;

pub use asked::{Asked, asked_values};
pub use auditing::{audit_unless_failed, read_audit, tables_are_sound};
pub use callers::caller_unless_failed;
pub use office_reading::read_office;
pub use reports::Report;
pub use steps::step;
