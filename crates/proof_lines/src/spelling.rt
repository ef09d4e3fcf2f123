// How ids are spelled.

/// How the ids of a line are spelled.
#[derive(Clone, Copy, Debug, PartialEq, Eq)]
pub enum Spelling {
    /// In decimal digits: version 1 of a log.
    Plain,
    /// Before the line that makes `next_id`, over a problem of so many rows: an id that a line made as
    /// `-k`, the k-th before `next_id`; any other in digits. Runs in `del` and `reduce` are shortened.
    Relative {
        /// The number of rows. The ids up to it are of no line.
        rows: u64,
        /// The next id, at most 2^63.
        next_id: u64,
    },
}
