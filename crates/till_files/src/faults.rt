//! Why there is no book.

ghost use Rattle.std.specs.Prelude.{◌≡◌, ◌≢◌};
ghost use Rattle.till_files.specs.Faults.{book_fault_for};

use sql_rows::StoreFault;

/// Why there is no book.
#[derive(Clone, Copy, Debug)]
pub enum BookFault {
    /// Out of memory.
    Memory,
    /// The store can hold no more.
    Size,
    /// The store failed.
    Store,
    /// The files hold no till's book.
    NotABook,
    /// A book was to be made, but the files hold tables already.
    Already,
}

/// Returns the fault of a book for a fault of the store.
pub fn book_fault(fault: StoreFault) -> BookFault
    ensures told { result ≡ book_fault_for fault }
    ensures book { result ≢ BookFault.NotABook }
    ensures already { result ≢ BookFault.Already }
{
    match fault {
        StoreFault::Memory => BookFault::Memory,
        StoreFault::Size => BookFault::Size,
        StoreFault::Failed => BookFault::Store,
    }
}
