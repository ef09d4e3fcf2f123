// What a turn of a search answers.

/// What a turn of a search did.
#[derive(Clone, Copy, Debug, PartialEq, Eq)]
pub enum Turn {
    /// One model was taken onto the board.
    Found,
    /// None was.
    Moved,
    /// Nothing is left: the line of this id is `0 >= 1`.
    Finished { id: u64 },
}
