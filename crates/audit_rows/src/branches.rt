//! One branch after another, over rows in the order of their branches.

ghost use Rattle.std.specs.Prelude.{◌≡◌};
ghost use Rattle.audit_rows.specs.Parts.{rows_of, front_rows, AreBehind};

use crate::{CheckedHeader, CheckedKept, CheckedLot, NumberedRows, split_branch};

/// The rows of one branch, and the numbers of its lots, of its kept commands and of the consignments that it sent.
#[derive(Clone, Copy)]
pub struct BranchRows<'a> {
    pub rows: NumberedRows<'a>,
    pub lots: usize,
    pub kept: usize,
    pub sent: usize,
}

/// The rows of all branches after the branches that were taken.
#[derive(Clone, Copy)]
pub struct Rest<'a> {
    pub rows: NumberedRows<'a>,
    pub lots: &'a [CheckedLot],
    pub kept: &'a [CheckedKept],
    pub headers: &'a [CheckedHeader],
}

/// Takes the branch's rows, which come first. Returns them, and all rows after them.
pub fn take_branch<'a>(rest: Rest<'a>, branch: u32) -> (BranchRows<'a>, Rest<'a>)
    ensures part { rows_of result.0 ≡ front_rows rest.entry branch }
    ensures more { AreBehind rest.entry result.1 branch }
{
    let (rows, more) = rest.rows.split(branch);
    let (lots, more_lots) = split_branch(rest.lots, branch);
    let (kept, more_kept) = split_branch(rest.kept, branch);
    let (sent, headers) = split_branch(rest.headers, branch);
    let part = BranchRows {
        rows,
        lots: lots.len(),
        kept: kept.len(),
        sent: sent.len(),
    };
    let more = Rest {
        rows: more,
        lots: more_lots,
        kept: more_kept,
        headers,
    };
    (part, more)
}
