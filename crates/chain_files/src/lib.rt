//! The two files of a chain of shops: finds them at a path, makes the tables in them, reads their version, examines
//! and migrates them.
#![tactic(auto)]

mod creation;
mod faults;
mod files;
mod migrating;
mod paths;
mod versions;

pub use creation::{FirstRows, create, first_values, in_memory};
pub use faults::OpenFault;
pub use files::connect;
pub use migrating::migrate_first;
pub use paths::{files_at, is_missing};
pub use versions::examine;
