//! What is wrong with a line.
use std::alloc::AllocError;
use std::io;

/// Why a row stops at a line.
#[derive(Clone, Copy)]
pub enum Fault {
    /// Nothing is wrong.
    Nothing,
    /// The line can't be played.
    Line(&'static str),
    /// The files weren't opened, for the fault of this name.
    Opening(&'static str),
    /// What was sent or answered differs from what is wanted.
    Out,
    /// The connection or the program ended in another way.
    End,
    /// The program wrote something else to its standard error.
    Err,
}

impl From<AllocError> for Fault {
    fn from(_: AllocError) -> Fault {
        Fault::Line("no memory")
    }
}

impl From<io::Error> for Fault {
    fn from(_: io::Error) -> Fault {
        Fault::Line("the input or the output failed")
    }
}
