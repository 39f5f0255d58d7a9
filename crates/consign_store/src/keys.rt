//! The key of a consignment.

use shop_types::{BranchNo, ConsignmentNo};

/// The key of a consignment. The number counts the consignments of its sender to its addressee.
#[derive(Clone, Copy)]
pub struct ConsignmentKey {
    pub source: BranchNo,
    pub addressee: BranchNo,
    pub number: ConsignmentNo,
}
