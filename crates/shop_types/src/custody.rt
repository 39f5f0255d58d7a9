ghost use Rattle.std.specs.Prelude.{◌≡◌, ℕ};
ghost use Rattle.shop_model.specs.Stock.{is_here};
ghost use Rattle.shop_types.specs.Seen.{seen_state};

use crate::{BranchNo, ConsignmentNo, CopyNo};

/// What a copy was when it came into the chain: the branch that imported it, and its number there. It keeps its mark
/// wherever it is sent.
#[derive(Clone, Copy, PartialEq, Eq)]
pub struct Mark {
    pub branch: BranchNo,
    pub copy: CopyNo,
}

/// Where the copy of a mark is.
#[derive(Clone, Copy)]
pub enum Place {
    /// In the shop of a branch, where it has that number.
    Here {
        branch: BranchNo,
        copy: CopyNo,
    },
    /// Under way, in the consignment of that number.
    Transit {
        from: BranchNo,
        to: BranchNo,
        number: ConsignmentNo,
    },
    /// Scrapped, or missing where its consignment was received.
    Gone,
}

/// Where a branch's copy is, as its row says.
#[derive(Clone, Copy)]
pub enum CopyState {
    /// In the branch, or rented out by it.
    Here,
    /// Sent to another branch.
    Sent,
    Scrapped,
}

/// Returns whether a copy in that state is in the branch, or rented out by it.
pub fn is_here(state: CopyState) -> bool
    ensures { (film : ℕ) → result ≡ is_here (record { film = film; state = seen_state state }) }
{
    match state {
        CopyState::Here => true,
        CopyState::Sent | CopyState::Scrapped => false,
    }
}

/// The state of a line of a consignment.
#[derive(Clone, Copy)]
pub enum LineState {
    /// The consignment isn't received yet.
    UnderWay,
    Arrived,
    /// The addressee didn't find its copy in the consignment.
    Missing,
}
