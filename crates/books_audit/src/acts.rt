//! Which bytes are the stored form of a branch's command.

ghost use Rattle.std.specs.Prelude.{◌↔◌, IsTrue};
ghost use Rattle.books_audit.specs.Forms.{IsActForm, IsCommandForm};

use crate::parts::{Part, is_one_of, skip};

/// The number of a row.
pub(crate) const NUMBER: Part = Part::Number(1, 4_294_967_295);

/// A name of 1 to 45 bytes.
pub(crate) const NAME: Part = Part::Text(1, 45);

/// Numbers of rows that a command lists.
const NUMBERS: Part = Part::Numbers(65_536);

/// The bytes of a stock file.
const FILE: Part = Part::Bytes(65_536);

/// The number of a row, or none.
const NUMBER_OR_NONE: Part = Part::Optional(1, 4_294_967_295);

/// The parts of each act's form, after its first byte. The first byte is the act's place in this list, counted from 1.
const ACTS: [&[Part]; 9] = [
    &[
        NAME,
        NAME,
        Part::Text(1, 128),
        Part::Text(0, 45),
        Part::Text(0, 45),
        NUMBER,
    ],
    &[NUMBER, Part::Flag],
    &[NUMBER, NUMBER],
    &[NUMBER],
    &[NUMBER, NUMBER_OR_NONE, Part::Number(0, 99_999)],
    &[Part::Key, FILE],
    &[NUMBER, NUMBERS],
    &[NUMBER, NUMBER, NUMBERS],
    &[NUMBER],
];

/// Returns whether the bytes are the form of an act.
fn is_act(bytes: &[u8]) -> bool
    ensures { IsTrue result ↔ IsActForm bytes.now }
{
    is_one_of(&ACTS, bytes)
}

/// Returns whether the bytes are the form of a branch's command.
pub(crate) fn is_command(bytes: &[u8]) -> bool
    ensures { IsTrue result ↔ IsCommandForm bytes.now }
{
    let Some(rest) = skip(NUMBER, bytes) else {
        return false;
    };
    let Some(rest) = skip(Part::Moment, rest) else {
        return false;
    };
    is_act(rest)
}
