//! Why bytes are no frame, and why a line has no words.

ghost use Rattle.std.specs.Prelude.{◌≡◌};
ghost use Rattle.till_program.specs.declared.fault.NoLine.TheVariants.{Memory, Form};

use std::alloc::{AllocError, AllocFailed};

/// Why bytes are no frame: the first fault from left to right.
#[derive(Clone, Copy, Debug, PartialEq, Eq)]
pub enum NoFrame {
    /// The bytes end before the frame does. More of them may make it one.
    Short,
    /// The bytes don't begin as a frame does.
    Foreign,
    /// The frame has another secret than the desk's.
    Denied,
    /// A part is longer than it may be.
    Long,
    /// Bytes follow the last part.
    Trailing,
}

/// Why a line wasn't read or written.
#[derive(Clone, Copy, Debug, PartialEq, Eq)]
pub enum NoLine {
    /// Out of memory.
    Memory,
    /// A word isn't UTF-8.
    NotText,
    /// The bytes are no line, or a part of it is too long.
    Form(NoFrame),
}

impl From<AllocError> for NoLine {
    ghost from_gives = { λ _ e. e ≡ Memory };

    fn from(_e: AllocError) -> NoLine {
        NoLine::Memory
    }
}

impl<T: Drop> From<AllocFailed<T>> for NoLine {
    ghost from_gives = { λ _ e. e ≡ Memory };

    fn from(_e: AllocFailed<T>) -> NoLine {
        NoLine::Memory
    }
}

impl From<NoFrame> for NoLine {
    ghost from_gives = { λ fault e. e ≡ Form fault };

    fn from(fault: NoFrame) -> NoLine {
        NoLine::Form(fault)
    }
}
