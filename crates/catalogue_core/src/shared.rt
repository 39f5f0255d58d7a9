//! Holds what was found of the shared rows that a command of head office names.

ghost use Rattle.std.specs.Prelude.{◌≡◌};
ghost use Rattle.catalogue_core.specs.Shares.{no_rows};

use shop_types::{KeptFound, StaffFound, StaffNo, Token};

/// A branch that a command names.
#[derive(Clone, Copy)]
pub struct BranchFound {
    pub manager: Option<StaffNo>,
}

/// All that a decision reads: the catalogue, head office's own keys, and nothing of any branch.
#[derive(Drop)]
pub struct Shared<'a> {
    /// Head office's kept row of the command's key, if there is one.
    pub kept: Option<KeptFound<'a>>,
    /// How many kept rows head office has.
    pub keys: u32,
    /// Head office's token.
    pub office_token: Token,
    pub rows: SharedRows,
}

/// The rows that a command's act names. The fields of rows that it doesn't name are never read.
#[derive(Clone, Copy)]
pub struct SharedRows {
    /// Whether a branch has the token that the command gives.
    pub has_token: bool,
    /// Whether a country, language or category has the name of the new one already, byte for byte.
    pub is_named: bool,
    pub has_country: bool,
    pub has_city: bool,
    pub has_language: bool,
    pub has_category: bool,
    pub has_actor: bool,
    /// Whether the actor is in the film's cast already.
    pub has_cast: bool,
    /// Whether the rule is chosen already.
    pub is_chosen: bool,
    /// Whether the film is withdrawn, if there is such a film.
    pub film: Option<bool>,
    /// The branch, if there is a branch of the number.
    pub branch: Option<BranchFound>,
    /// The member of staff, if there is one of the number.
    pub staff: Option<StaffFound>,
}

impl SharedRows {
    /// Returns a value in which nothing was found of any row.
    pub fn none() -> SharedRows
        ensures { result ≡ no_rows }
    {
        SharedRows {
            has_token: false,
            is_named: false,
            has_country: false,
            has_city: false,
            has_language: false,
            has_category: false,
            has_actor: false,
            has_cast: false,
            is_chosen: false,
            film: None,
            branch: None,
            staff: None,
        }
    }
}
