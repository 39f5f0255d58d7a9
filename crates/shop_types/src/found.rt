use crate::BranchNo;

/// The kept row of a command's key, as compared with the command.
#[derive(Clone, Copy)]
pub struct KeptFound<'a> {
    /// Whether the kept command is equal to the command.
    pub is_same: bool,
    /// The body of the reply that the kept command had.
    pub reply: &'a str,
}

/// A member of staff whom a command names.
#[derive(Clone, Copy)]
pub struct StaffFound {
    pub branch: BranchNo,
    /// Whether the member of staff left.
    pub gone: bool,
}
