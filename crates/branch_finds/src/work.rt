//! Defines the result of a request inside a transaction, and the lists of a branch.

use shop_ledger::Answered;
use shop_types::{Moment, View};

/// The result of a request inside a transaction.
#[derive(Drop)]
pub enum Work<L> {
    /// The request is answered.
    Answered(Answered),
    /// The request asks for a list, which is shown outside any transaction.
    Shows(L),
}

/// A list for a branch, whose rows come one at a time, outside any transaction.
#[derive(Clone, Copy)]
pub enum Listing {
    /// The rows of a view.
    View(View),
    /// The branch's rentals that are overdue at the moment.
    Overdue(Moment),
    /// The consignments that were sent to the branch.
    Arrivals,
    /// The consignments that the branch sent.
    Sent,
}
