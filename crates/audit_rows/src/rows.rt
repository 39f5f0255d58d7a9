//! Rows in the order of their keys, each with the columns that soundness asks about.

ghost use Rattle.std.specs.Prelude.{◌≡◌, [], ◌∷◌};

use crate::groups::Owned;
use crate::order::{Keyed, Numbered};
use shop_types::{
    ActorNo, BranchNo, CategoryNo, CityNo, CountryNo, FilmNo, Key, LanguageNo, LineState, LotName,
    Mark, Moment, StaffNo, Token,
};
use std::cmp::Ordering;

// ---- shared rows, whose numbers are their places

/// A city.
#[derive(Clone, Copy, Drop)]
pub struct CheckedCity {
    pub country: CountryNo,
}

/// A film.
#[derive(Clone, Copy, Drop)]
pub struct CheckedFilm {
    pub language: LanguageNo,
    pub category: CategoryNo,
}

/// Who plays in which film.
#[derive(Clone, Copy, Drop)]
pub struct CheckedCast {
    pub film: FilmNo,
    pub actor: ActorNo,
}

/// A branch.
#[derive(Clone, Copy, Drop)]
pub struct CheckedBranch {
    pub token: Token,
    pub city: CityNo,
    pub manager: Option<StaffNo>,
    /// The moment of its last command.
    pub last: Option<Moment>,
}

/// A member of staff.
#[derive(Clone, Copy, Drop)]
pub struct CheckedStaff {
    pub branch: BranchNo,
    pub city: CityNo,
}

// ---- rows of a branch

/// A row of a branch, with its number in the branch, and its other checked columns.
#[derive(Clone, Copy, Drop)]
pub struct CheckedRow<T> {
    pub branch: BranchNo,
    pub number: u32,
    pub it: T,
}

/// The name of a lot that a branch imported.
#[derive(Drop)]
pub struct CheckedLot {
    pub branch: BranchNo,
    pub name: LotName,
}

/// The key of a command that is kept for a branch.
#[derive(Drop)]
pub struct CheckedKept {
    pub branch: BranchNo,
    pub key: Key,
}

// ---- consignments

/// A consignment without its lines.
#[derive(Clone, Copy, Drop)]
pub struct CheckedHeader {
    pub source: BranchNo,
    pub addressee: BranchNo,
    pub number: u32,
    pub place: u64,
    pub received: bool,
}

/// A line of a consignment, with the consignment's key and the line's number in the consignment.
#[derive(Clone, Copy, Drop)]
pub struct CheckedLine {
    pub source: BranchNo,
    pub addressee: BranchNo,
    pub number: u32,
    pub line: u32,
    pub film: FilmNo,
    pub mark: Mark,
    pub state: LineState,
}

// ---- their keys

impl Keyed for Key {
    ghost key = { λ key. key };

    fn compare(&self, other: &Key) -> Ordering {
        self.as_str().cmp(other.as_str())
    }
}

impl Keyed for CheckedCast {
    ghost key = { λ row. row.film ∷ row.actor ∷ [] };

    fn compare(&self, other: &CheckedCast) -> Ordering {
        let first = self.film.get().cmp(&other.film.get());
        first.then(self.actor.get().cmp(&other.actor.get()))
    }
}

impl<T: Drop> Keyed for CheckedRow<T> {
    ghost key = { λ row. row.branch ∷ row.number ∷ [] };

    fn compare(&self, other: &CheckedRow<T>) -> Ordering {
        let first = self.branch.get().cmp(&other.branch.get());
        first.then(self.number.cmp(&other.number))
    }
}

impl Keyed for CheckedLot {
    ghost key = { λ row. row.branch ∷ row.name };

    fn compare(&self, other: &CheckedLot) -> Ordering {
        let first = self.branch.get().cmp(&other.branch.get());
        first.then(self.name.as_str().cmp(other.name.as_str()))
    }
}

impl Keyed for CheckedKept {
    ghost key = { λ row. row.branch ∷ row.key };

    fn compare(&self, other: &CheckedKept) -> Ordering {
        let first = self.branch.get().cmp(&other.branch.get());
        first.then(self.key.as_str().cmp(other.key.as_str()))
    }
}

impl Keyed for CheckedHeader {
    ghost key = { λ row. row.source ∷ row.addressee ∷ row.number ∷ [] };

    fn compare(&self, other: &CheckedHeader) -> Ordering {
        let first = self.source.get().cmp(&other.source.get());
        let second = self.addressee.get().cmp(&other.addressee.get());
        first.then(second).then(self.number.cmp(&other.number))
    }
}

impl Keyed for CheckedLine {
    ghost key = { λ row. row.source ∷ row.addressee ∷ row.number ∷ row.line ∷ [] };

    fn compare(&self, other: &CheckedLine) -> Ordering {
        let first = self.source.get().cmp(&other.source.get());
        let second = self.addressee.get().cmp(&other.addressee.get());
        let third = self.number.cmp(&other.number);
        first
            .then(second)
            .then(third)
            .then(self.line.cmp(&other.line))
    }
}

// ---- their numbers

impl<T: Drop> Numbered for CheckedRow<T> {
    ghost number = { λ row. row.number };

    fn number(&self) -> u32 {
        self.number
    }
}

/// A line's number is that in its consignment.
impl Numbered for CheckedLine {
    ghost number = { λ row. row.line };

    fn number(&self) -> u32 {
        self.line
    }
}

// ---- their branches

impl<T: Drop> Owned for CheckedRow<T> {
    ghost owner = { λ row. row.branch };

    fn owner(&self) -> u32 {
        self.branch.get()
    }
}

impl Owned for CheckedLot {
    ghost owner = { λ row. row.branch };

    fn owner(&self) -> u32 {
        self.branch.get()
    }
}

impl Owned for CheckedKept {
    ghost owner = { λ row. row.branch };

    fn owner(&self) -> u32 {
        self.branch.get()
    }
}

/// A consignment is its sender's.
impl Owned for CheckedHeader {
    ghost owner = { λ row. row.source };

    fn owner(&self) -> u32 {
        self.source.get()
    }
}
