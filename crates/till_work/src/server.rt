//! The way to the server.

ghost use Rattle.std.specs.Prelude.{IfOk, OnErr};

use std::io::{self, Read, Write};

/// Where a till's connections come from. The one promise is that this server opened a connection: it may break at any
/// byte.
pub trait Server {
    type Reader: Read + Drop;

    type Writer: Write + Drop;

    // these are the streams of a connection that the server opened; nothing was read or written yet
    ghost opens: { Self → Self.Reader → Self.Writer → Type 0 };

    // the server opens no connection
    ghost refuses: { Self → Type 0 };

    /// Opens a connection, and returns what is read of it and what is written to it.
    fn connect(&self) -> io::Result<(Self::Reader, Self::Writer)>
        ensures opened { IfOk result (λ streams. opens self.now streams.0 streams.1) }
        ensures refused { OnErr result (refuses self.now) };
}

/// Gets reports on how far a sending is.
pub trait Watch {
    /// Reports that many of all that waited have their replies, and that the next one is sent.
    fn sends(&mut self, sent: u32, all: u32);
}
