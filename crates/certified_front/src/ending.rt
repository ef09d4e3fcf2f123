// How a search for a front ends.
use front_set::Entry;

/// How a search for a front ends.
#[derive(Clone, Copy, Debug, PartialEq, Eq)]
pub enum Ending {
    /// The proof has ended: the list is the front.
    Complete,
    /// So many clauses were learned as may be.
    Incomplete { learned: u64 },
}

/// The models that were found, in rising order of their costs, and how the search ended.
#[derive(Debug, Drop)]
pub struct Found {
    pub entries: Vec<Entry>,
    pub ending: Ending,
}
