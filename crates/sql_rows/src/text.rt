//! Texts and bytes of columns, as values that contracts can compare.

ghost use Rattle.std.specs.Prelude.{◌≡◌};
ghost use Rattle.sqlite_value.specs.Value.{owned};
ghost use Rattle.sqlite.specs.Values.{bound_value, or_null};
ghost use Rattle.sqlite.specs.declared.types.Value.TheVariants.{Text};

use sqlite::types::{ToSql, ValueRef};
use std::alloc::{AllocError, Global};
use std::marker::Model;

/// A text, which contracts see as its bytes.
#[derive(Drop)]
pub struct Words {
    text: String,
}

impl Model for Words {
    ghost use Rattle.std.specs.Prelude.{ℕ, List, string_bytes};

    ghost Value = { List ℕ };

    ghost view = { λ w. string_bytes w.text };
}

impl Words {
    ghost use Rattle.std.specs.Prelude.{◌≡◌, IsUtf8, string_bytes};

    /// Returns the text as `Words`. It takes the `String`, and so no memory.
    pub fn new(text: String) -> Words
        ensures value { result ≡ string_bytes text }
        ensures utf8 { IsUtf8 result }
    {
        let _bytes = text.as_str();
        Words { text }
    }

    pub fn as_str(&self) -> &str
        ensures { result.now ≡ self.now }
    {
        self.text.as_str()
    }

    /// Returns the text as a `String`.
    pub fn into_string(self) -> String
        ensures { string_bytes result ≡ self }
    {
        let Words { text } = self;
        text
    }
}

/// Bytes, which contracts see as a list of numbers.
#[derive(Drop)]
pub struct Bytes {
    bytes: Vec<u8>,
}

impl Model for Bytes {
    ghost use Rattle.std.specs.Prelude.{ℕ, List};

    ghost Value = { List ℕ };

    ghost view = { λ b. b.bytes.items };
}

impl Bytes {
    ghost use Rattle.std.specs.Prelude.{◌≡◌};

    /// Returns the bytes as `Bytes`. It takes the `Vec`, and so no memory.
    pub fn new(bytes: Vec<u8>) -> Bytes
        ensures { result ≡ bytes.items }
    {
        Bytes { bytes }
    }

    pub fn as_slice(&self) -> &[u8]
        ensures { result.now ≡ self.now }
    {
        self.bytes.as_slice()
    }
}

/// Returns the text as a parameter, or NULL.
pub fn value_or_null(text: &Option<Words>) -> ValueRef<'_>
    ensures { bound_value (owned result) ≡ or_null Text text.now }
{
    match text {
        Some(words) => words.as_str().to_sql(),
        None => ValueRef::Null,
    }
}
