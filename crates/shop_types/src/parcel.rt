ghost use Rattle.std.specs.Prelude.{◌≡◌, ◌≤◌, Some, None, length, if◌then◌else◌};
ghost use Rattle.shop_types.specs.NumberLists.{are_few};

use crate::{FilmNo, Mark};
use std::marker::Model;

/// A line of a consignment: the film and the mark of its copy.
#[derive(Clone, Copy)]
pub struct ParcelLine {
    pub film: FilmNo,
    pub mark: Mark,
}

/// The lines of a consignment in their order: at most 100.
#[derive(Drop)]
pub struct ParcelLines {
    lines: Vec<ParcelLine>,
}

impl Model for ParcelLines {
    ghost use Rattle.std.specs.Prelude.{◌≡◌, List, true};
    ghost use Rattle.shop_types.specs.declared.parcel.ParcelLine.{ParcelLine};
    ghost use Rattle.shop_types.specs.NumberLists.{are_few};

    ghost Value = { List ParcelLine };

    ghost view = { λ it. it.lines.items };

    ghost invariant = { λ it. are_few it.lines.items ≡ true };
}

impl ParcelLines {
    /// Returns the lines, if they are no more than 100. It takes the `Vec`, and so no memory.
    pub fn new(lines: Vec<ParcelLine>) -> Option<ParcelLines>
        ensures { result ≡ (if are_few lines.items then Some lines.items else None) }
    {
        if lines.len() <= 100 {
            Some(ParcelLines { lines })
        } else {
            None
        }
    }

    pub fn as_slice(&self) -> &[ParcelLine]
        ensures value { result.now ≡ self.now }
        ensures few { length result.now ≤ 100 }
    {
        self.lines.as_slice()
    }
}
