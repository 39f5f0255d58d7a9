//! Where lists are kept for a while, and texts that are added to.

use std::alloc::Global;

/// A shelf for lists and texts. Nothing is promised of it: what is put there may be gone.
pub trait Shelf {
    /// Returns what was put there under that name, and in which second since 1970.
    fn take(&self, alloc: Global, name: &'static str) -> Option<(u64, Vec<u8>)>;

    /// Puts it there, in the place of what was there under that name.
    fn put(&self, alloc: Global, name: &'static str, second: u64, bytes: &[u8]);

    /// Returns all that was added under that name: nothing if nothing was added yet, and none if it can't be read.
    fn whole(&self, alloc: Global, name: &'static str) -> Option<Vec<u8>>;

    /// Adds the bytes after those that were added under that name: all of them or none, as far as files allow. Reports
    /// whether they were added.
    fn add(&self, alloc: Global, name: &'static str, bytes: &[u8]) -> bool;

    /// Adds the bytes after those that were added under that name. If that fails, a part of them may be there. Reports
    /// whether all were added.
    fn append(&self, alloc: Global, name: &'static str, bytes: &[u8]) -> bool;

    /// Drops what was put there under that name.
    fn forget(&self, name: &'static str);
}
