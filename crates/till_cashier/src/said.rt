//! The outcome of a word.

ghost use Rattle.std.specs.Prelude.{◌≡◌, ◌⊎◌, ◌++◌, [], OnOk, OnErr, string_bytes};
ghost use Rattle.till_cashier.specs.Saying.{ended};

use std::alloc::{AllocError, Global};

/// What is printed of a word, each line of it ended by a line feed, and the program's status: 0 done, 1 refused, 2
/// usage, 3 a fault of the till's own, 4 not answered yet.
#[derive(Drop)]
pub struct Said {
    pub text: String,
    pub status: u8,
}

impl Said {
    /// Returns that the word is done, with nothing to say yet.
    pub fn done(alloc: Global) -> Said
        ensures text { string_bytes result.text ≡ [] }
        ensures status { result.status ≡ 0 }
    {
        Said {
            text: String::new(alloc),
            status: 0,
        }
    }

    /// Adds one line or more. If the last one doesn't end with a line feed, it gets one. If memory runs out, nothing is
    /// added, or the lines without that line feed.
    pub fn line(&mut self, line: &str) -> Result<(), AllocError>
        ensures added { OnOk result (string_bytes self.new.text ≡ string_bytes self.old.text ++ ended line.now) }
        ensures failed { OnErr result ((string_bytes self.new.text ≡ string_bytes self.old.text)
            ⊎ (string_bytes self.new.text ≡ string_bytes self.old.text ++ line.now)) }
        ensures status { self.new.status ≡ self.old.status }
    {
        self.text.push_str(line)?;
        if line.ends_with('\n') {
            return Ok(());
        }
        self.text.push_str("\n")
    }
}
