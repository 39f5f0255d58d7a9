/// What an audit of the books says: whether they are sound, and how many copies are where.
#[derive(Clone, Copy, Debug, PartialEq, Eq)]
pub struct Audit {
    /// Whether the tables stand for sound books.
    pub sound: bool,
    /// The marks that were made: the copies that came into the chain by stock files.
    pub made: u64,
    /// The copies that are here, at any branch.
    pub here: u64,
    /// The lines of consignments that are under way.
    pub transit: u64,
    /// The copies that were scrapped and the lines that are missing.
    pub gone: u64,
}
