//! Which bytes are the stored form of a command of head office.

ghost use Rattle.std.specs.Prelude.{◌↔◌, IsTrue};
ghost use Rattle.books_audit.specs.Forms.{IsOfficeForm};

use crate::acts::{NAME, NUMBER};
use crate::parts::{Part, is_one_of};

/// A new film, which isn't withdrawn.
const FILM: [Part; 11] = [
    Part::Text(1, 128),
    Part::Text(0, 500),
    NUMBER,
    NUMBER,
    Part::Number(1, 255),
    Part::Number(0, 9_999),
    Part::Number(0, 99_999),
    Part::Optional(1, 65_535),
    Part::Rating,
    Part::Features,
    Part::Unset,
];

/// A new branch, which has no manager.
const BRANCH: [Part; 6] = [
    Part::Token,
    Part::Text(1, 128),
    Part::Text(0, 45),
    Part::Text(0, 45),
    NUMBER,
    Part::Numbers(0),
];

/// A new member of staff.
const STAFF: [Part; 7] = [
    NUMBER,
    NAME,
    NAME,
    Part::Text(1, 128),
    Part::Text(0, 45),
    Part::Text(0, 45),
    NUMBER,
];

/// The parts of the form of each act of head office, after its first byte. The first byte is the act's place in this
/// list, counted from 1.
const OFFICE_ACTS: [&[Part]; 14] = [
    &[NAME],
    &[NAME, NUMBER],
    &[NAME],
    &[NAME],
    &[NAME, NAME],
    &FILM,
    &[NUMBER, Part::Number(0, 9_999)],
    &[NUMBER],
    &[NUMBER, NUMBER],
    &BRANCH,
    &STAFF,
    &[NUMBER],
    &[NUMBER, NUMBER],
    &[Part::Flag],
];

/// Returns whether the bytes are the form of a command of head office.
pub(crate) fn is_office_command(bytes: &[u8]) -> bool
    ensures { IsTrue result ↔ IsOfficeForm bytes.now }
{
    is_one_of(&OFFICE_ACTS, bytes)
}
